// What a row's host answers, and what is to fail.
use crate::content::hex;
use crate::fault::StepFault;
use crate::words::{number, word};
use qv_outside::signature::{Kind, Sig};
use std::alloc::Global;

// Room for the bytes of `out`, and for those of `err`.
const ROOM: u32 = 65_536;

/// What the host replies in the next run, and what is to fail in it.
#[derive(Drop)]
pub struct Plan {
    /// The calls of the files that fail, from 0.
    pub calls: Vec<u64>,
    /// The puts of `err` that fail, from 0.
    pub puts: Vec<u64>,
    /// How many bytes `err` takes.
    pub room: u32,
    /// The puts of `out` that fail, from 0.
    pub out_puts: Vec<u64>,
    /// How many bytes `out` takes.
    pub out_room: u32,
    /// The calls of the host that fail, from 0.
    pub asks: Vec<u64>,
    /// The host's replies in order.
    pub replies: Vec<(u32, Vec<u8>)>,
    /// Whether the files are of the kind that never fails.
    pub is_steady: bool,
}

impl Plan {
    /// Nothing is replied, and nothing fails.
    pub fn new(alloc: Global) -> Plan {
        Plan {
            calls: Vec::new(alloc),
            puts: Vec::new(alloc),
            room: ROOM,
            out_puts: Vec::new(alloc),
            out_room: ROOM,
            asks: Vec::new(alloc),
            replies: Vec::new(alloc),
            is_steady: false,
        }
    }

    /// Reads a line of the plan.
    pub fn read(&mut self, alloc: Global, verb: &str, args: &[String]) -> Result<(), StepFault> {
        match (verb, args) {
            ("steady", []) => self.is_steady = true,
            ("room", [count]) => self.room = number(count)?,
            ("outroom", [count]) => self.out_room = number(count)?,
            ("reply", _) => self.reply(alloc, args)?,
            ("fail", [what, place]) => self.fail(what, u64::from(number(place)?))?,
            _ => return Err(StepFault::Unread),
        }
        Ok(())
    }

    /// Adds replies, each a word and, behind a colon, bytes in hexadecimal.
    fn reply(&mut self, alloc: Global, replies: &[String]) -> Result<(), StepFault> {
        for reply in replies {
            let (value, bytes) = reply.split_once(':').unwrap_or((reply, ""));
            self.replies.push((word(value)?, hex(alloc, bytes)?))?;
        }
        Ok(())
    }

    /// Lets the call or the put at this place fail.
    fn fail(&mut self, what: &str, place: u64) -> Result<(), StepFault> {
        let places = match what {
            "call" => &mut self.calls,
            "put" => &mut self.puts,
            "out" => &mut self.out_puts,
            "ask" => &mut self.asks,
            _ => return Err(StepFault::Unread),
        };
        Ok(places.push(place)?)
    }
}

/// The number of a trap of the host, and the kinds of its arguments.
pub fn trap(alloc: Global, args: &[String]) -> Result<(u32, Sig), StepFault> {
    let [trap, words @ ..] = args else {
        return Err(StepFault::Unread);
    };
    let mut kinds = Vec::new(alloc);
    for word in words {
        kinds.push(kind(word)?)?;
    }
    if !Sig::fits(&kinds) {
        return Err(StepFault::Unread);
    }
    Ok((number(trap)?, Sig::new(&kinds)))
}

/// The kind that a word names.
fn kind(word: &str) -> Result<Kind, StepFault> {
    match (word, word.split_once(':')) {
        ("int", _) => Ok(Kind::Int),
        ("text", _) => Ok(Kind::Text),
        (_, Some(("in", place))) => Ok(Kind::InBytes(argument(place)?)),
        (_, Some(("out", place))) => Ok(Kind::OutBytes(argument(place)?)),
        _ => Err(StepFault::Unread),
    }
}

/// The place of an argument.
fn argument(word: &str) -> Result<u8, StepFault> {
    u8::try_from(number(word)?).ok().ok_or(StepFault::Unread)
}
