// Handlers registered and called.
ghost use Rattle.std.specs.Prelude.{◌<◌, ◌≤◌, ◌^◌, length};

use crate::handler::Handler;
use crate::registry::{Registry, UnregisteredKind};
use qv_outside::host::{Host, TrapCall, TrapReply};
use qv_outside::signature::{Kind, Sig};
use std::test::Fail;

#[test]
fn registers_a_number_once(rt: HostRuntime) -> Result<(), Fail> {
    let alloc = rt.alloc();
    let mut registry = Registry::new(alloc);
    let sig = Sig::new(&[]);
    let five: Handler = Box::new(alloc, |_: &[u32], _: &[u8], _: &[u8], _: &mut [u8]| {
        TrapReply { word: 5, used: 0 }
    })?;
    let refused = registry
        .register(1_024, sig, five)
        .err()
        .ok_or("registered")?;
    assert!(rt; refused.kind == UnregisteredKind::OutOfRange);
    let refused = registry
        .register(0, sig, refused.handler)
        .err()
        .ok_or("registered")?;
    assert!(rt; refused.kind == UnregisteredKind::Reserved);
    assert!(rt; registry.register(8, sig, refused.handler).is_ok());

    let seven: Handler = Box::new(alloc, |_: &[u32], _: &[u8], _: &[u8], _: &mut [u8]| {
        TrapReply { word: 7, used: 0 }
    })?;
    let refused = registry.register(8, sig, seven).err().ok_or("registered")?;
    assert!(rt; refused.kind == UnregisteredKind::Twice);
    assert!(rt; (refused.handler)(&[0; 14], &[], &[], &mut []).word == 7);

    assert!(rt; registry.sig(8) == Some(sig));
    assert!(rt; registry.sig(9).is_none());
    let call = TrapCall {
        number: 8,
        ints: [0; 14],
        int_count: 0,
        first: &[],
        second: &[],
        input_count: 0,
        out_len: 0,
    };
    let reply = TrapReply { word: 5, used: 0 };
    assert!(rt; registry.call(&call, &mut []) == Ok(reply));
    Ok(())
}

#[test]
fn lends_more_than_is_used(rt: HostRuntime) -> Result<(), Fail> {
    let alloc = rt.alloc();
    let mut registry = Registry::new(alloc);
    let sig = Sig::new(&[Kind::Int, Kind::OutBytes(0)]);
    let text = b"ab".to_vec(alloc)?;
    let copied: Handler = Box::new(
        alloc,
        move |ints: &[u32], _: &[u8], _: &[u8], room: &mut [u8]| -> TrapReply
            requires words { 0 < length ints.now }
            requires room { length room.old < 2 ^ 32 }
            ensures { result.used ≤ length room.old }
        {
            let used = room.len().min(text.len());
            room[..used].copy_from_slice(&text[..used]);
            TrapReply {
                word: ints[0],
                used: used as u32,
            }
        },
    )?;
    assert!(rt; registry.register(9, sig, copied).is_ok());
    assert!(rt; registry.sig(9) == Some(sig));
    let mut ints = [0; 14];
    ints[0] = 3;
    let call = TrapCall {
        number: 9,
        ints,
        int_count: 1,
        first: &[],
        second: &[],
        input_count: 0,
        out_len: 3,
    };
    let mut room = *b"xyz";
    let reply = TrapReply { word: 3, used: 2 };
    assert!(rt; registry.call(&call, &mut room) == Ok(reply));
    assert!(rt; room == *b"abz");
    Ok(())
}
