//! Expansion of a list from the left.
ghost use Rattle.std.specs.Prelude.{List, ℕ, ◌≡◌, ◌<◌, ◌≤◌, ◌-◌, ◌++◌, ◌∷◌, [], IfOk, OnOk, None, false};
ghost use Rattle.pp_macro.specs.Calls as spec;
ghost use Rattle.pp_macro.specs.Expand.{expand_in, expand_list, walk, within};
ghost use Rattle.pp_macro.specs.Nests.{Changes, Expands, Moves, Nests, macro_of};
ghost use Rattle.pp_macro.specs.Tokens.{common};
ghost use Rattle.pp_macro.specs.declared.pending.Pending.{Pending};

use crate::call::{Call, counts, take_call};
use crate::fault::ExpandFault;
use crate::fill::Arguments;
use crate::macros::Macro;
use crate::meaning::{Found, due};
use crate::pending::{Filling, Pending};
use crate::pieces::{Piece, pieces, wants};
use crate::table::MacroTable;
use crate::tokens::common;
use crate::unread::Unread;
use pp_tok::token::PpTok;
use qv_base::NoMemory;
use qv_base::name::Name;
use qv_base::place::Place;
use sqlite_items::Items;
use std::alloc::Global;

// The most replacements of a unit.
const LIMIT: u32 = 1_000_000;

// How deep arguments may stand in arguments.
const DEPTH: usize = 200;

// Moves tokens to `out` until one comes that is to be replaced.
fn next_due<'t>(
    alloc: Global,
    table: &'t MacroTable,
    names: &[Name],
    unread: &mut Unread<'_>,
    out: &mut Items<PpTok>,
) -> Result<Option<(Pending, Found<'t>)>, NoMemory>
    ensures { Moves table.now names.now unread.old out.old result unread.new out.new }
{
    while let Some(token) = unread.pop()? {
        if let Some(found) = due(alloc, table, names, &token, unread)? {
            return Ok(Some((token, found)));
        }
        out.push(token.token)?;
    }
    Ok(None)
}

// The names that what an object-like macro brings is to hide.
fn names_of_object(token: PpTok) -> Result<Items<Name>, NoMemory>
    ensures { IfOk result (λ names. names ≡ token.hidden ++ token.spelling ∷ []) }
{
    let mut names = token.hidden;
    names.push(token.spelling)?;
    Ok(names)
}

// The names that what a call brings is to hide.
fn names_of_call(alloc: Global, token: &PpTok, close: &PpTok) -> Result<Items<Name>, NoMemory>
    ensures { IfOk result (λ names. names ≡ common token.now.hidden close.now.hidden ++ token.now.spelling ∷ []) }
{
    let mut names = common(alloc, token.hidden.as_slice(), close.hidden.as_slice())?;
    names.push(Name::from_bytes(alloc, token.spelling.bytes())?)?;
    Ok(names)
}

#[derive(Clone, Copy)]
struct Expander<'t, F> {
    alloc: Global,
    table: &'t MacroTable,
    // The files' names.
    names: &'t [Name],
    // How deep arguments may still stand in arguments.
    depth: usize,
    inner: F,
}

impl<
    F: Fn(
        Global,
        &MacroTable,
        &[Name],
        usize,
        Place,
        &[PpTok],
        &mut u32,
    ) -> Result<Items<PpTok>, ExpandFault>,
> Expander<'_, F> {
    // An argument expanded, where the body asks for it.
    fn argument(
        &self,
        place: Place,
        wanted: bool,
        argument: &[PpTok],
        count: &mut u32,
    ) -> Result<Items<PpTok>, ExpandFault>
        requires nests { Nests self.now.depth (F.pre self.now.inner) (F.post self.now.inner) }
        ensures reads { Expands (spec.one_of (expand_in self.now.table.now self.now.names.now self.now.depth) place count.old wanted argument.now) result count.new }
        ensures low { OnOk result (count.old ≤ count.new) }
    {
        if !wanted {
            return Ok(Items::new(self.alloc));
        }
        (self.inner)(
            self.alloc, self.table, self.names, self.depth, place, argument, count,
        )
    }

    // The arguments that the body asks for expanded, in order.
    fn each(
        &self,
        place: Place,
        body: &[Piece],
        args: &[Items<PpTok>],
        count: &mut u32,
    ) -> Result<Items<Items<PpTok>>, ExpandFault>
        requires nests { Nests self.now.depth (F.pre self.now.inner) (F.post self.now.inner) }
        ensures reads { Expands (spec.each (expand_in self.now.table.now self.now.names.now self.now.depth) place body.now 0 count.old args.now) result count.new }
        ensures low { OnOk result (count.old ≤ count.new) }
    {
        let mut all = Items::new(self.alloc);
        for at in 0..args.len() {
            all.push(self.argument(place, wants(at, body), args[at].as_slice(), count)?)?;
        }
        Ok(all)
    }

    // What a call brings.
    fn called(
        &self,
        token: &Pending,
        body: Items<Piece>,
        call: Call,
        count: &mut u32,
    ) -> Result<Filling, ExpandFault>
        requires nests { Nests self.now.depth (F.pre self.now.inner) (F.post self.now.inner) }
        ensures reads { (rest : List Pending) → Changes (spec.called (expand_in self.now.table.now self.now.names.now self.now.depth) count.old token.now body (record { args = call.args; close = call.close; after = rest })) (spec.began token.now) result count.new rest }
        ensures low { OnOk result (count.old ≤ count.new) }
    {
        let place = token.began();
        let expanded = self.each(place, body.as_slice(), call.args.as_slice(), count)?;
        let arguments = Arguments {
            raw: call.args.as_slice(),
            expanded: expanded.as_slice(),
        };
        Ok(Filling {
            tokens: arguments.fill(self.alloc, place, body)?,
            names: names_of_call(self.alloc, &token.token, &call.close)?,
        })
    }

    // What a function-like macro brings, whose call is taken off.
    fn function(
        &self,
        token: &Pending,
        params: &[Name],
        body: &[PpTok],
        unread: &mut Unread<'_>,
        count: &mut u32,
    ) -> Result<Filling, ExpandFault>
        requires nests { Nests self.now.depth (F.pre self.now.inner) (F.post self.now.inner) }
        ensures reads { Changes (spec.if_taken (expand_in self.now.table.now self.now.names.now self.now.depth) count.old token.now params.now body.now (spec.call_at (spec.tail_of unread.old) 0 [] [])) (spec.began token.now) result count.new unread.new }
        ensures low { OnOk result (count.old ≤ count.new) }
    {
        unread.skip();
        let Some(call) = take_call(self.alloc, unread)? else {
            return Err(ExpandFault::OpenCall(token.began()));
        };
        if !counts(params, call.args.as_slice()) {
            return Err(ExpandFault::ArgCount(token.began()));
        }
        self.called(token, pieces(self.alloc, params, body)?, call, count)
    }

    // What an object-like macro brings.
    fn object(&self, token: Pending, body: &[PpTok]) -> Result<Filling, ExpandFault>
        ensures { (count : ℕ) (rest : List Pending) → Changes (spec.by_params (expand_in self.now.table.now self.now.names.now self.now.depth) count token body.now rest None) (spec.began token) result count rest }
    {
        let pieces = pieces(self.alloc, &[], body)?;
        let arguments = Arguments {
            raw: &[],
            expanded: &[],
        };
        Ok(Filling {
            tokens: arguments.fill(self.alloc, token.began(), pieces)?,
            names: names_of_object(token.token)?,
        })
    }

    // What a macro brings in the place of its name.
    #[tactic(auto, unfolding(crate::specs::Calls::change))]
    fn change(
        &self,
        token: Pending,
        found: &Macro,
        unread: &mut Unread<'_>,
        count: &mut u32,
    ) -> Result<Filling, ExpandFault>
        requires nests { Nests self.now.depth (F.pre self.now.inner) (F.post self.now.inner) }
        ensures reads { Changes (spec.change (expand_in self.now.table.now self.now.names.now self.now.depth) count.old token found.now unread.old) (spec.began token) result count.new unread.new }
        ensures low { OnOk result ((count.old < count.new) × (count.old < 1000000)) }
    {
        if *count >= LIMIT {
            return Err(ExpandFault::MacroLimit(token.began()));
        }
        *count += 1;
        let Some(params) = &found.params else {
            return self.object(token, found.body.as_slice());
        };
        self.function(
            &token,
            params.as_slice(),
            found.body.as_slice(),
            unread,
            count,
        )
    }

    // The tokens from the left, each name that is due replaced and read again.
    fn walk(
        &self,
        outer: Option<Place>,
        tokens: &[PpTok],
        count: &mut u32,
    ) -> Result<Items<PpTok>, ExpandFault>
        requires nests { Nests self.now.depth (F.pre self.now.inner) (F.post self.now.inner) }
        ensures reads { Expands (walk self.now.table.now self.now.names.now (expand_in self.now.table.now self.now.names.now self.now.depth) (1000000 - count.old) count.old (within outer tokens.now)) result count.new }
        ensures low { OnOk result (count.old ≤ count.new) }
    {
        let mut out = Items::new(self.alloc);
        let mut unread = Unread::new(self.alloc, tokens, outer);
        while let Some((token, found)) = next_due(
            self.alloc,
            self.table,
            self.names,
            &mut unread,
            &mut out,
        )? {
            let place = token.began();
            let filling = self.change(token, found.get(), &mut unread, count)?;
            unread.put_back(place, filling)?;
        }
        Ok(out)
    }
}

// An argument expanded, with arguments in arguments less deep than `depth`.
#[tactic(auto, unfolding(crate::specs::Expand::expand_in))]
fn expand_argument(
    alloc: Global,
    table: &MacroTable,
    names: &[Name],
    depth: usize,
    place: Place,
    tokens: &[PpTok],
    count: &mut u32,
) -> Result<Items<PpTok>, ExpandFault>
    ensures reads { Expands (expand_in table.now names.now depth place count.old tokens.now) result count.new }
    ensures low { OnOk result (count.old ≤ count.new) }
{
    if depth == 0 {
        return Err(ExpandFault::MacroLimit(place));
    }
    Expander {
        alloc,
        table,
        names,
        depth: depth - 1,
        inner: expand_argument,
    }
    .walk(Some(place), tokens, count)
}

/// The tokens with their macros expanded (ANSI C X3.159-1989, 3.8.3).
///
/// `names` are the files' names by their numbers, for `__FILE__`. `count` is the count of
/// replacements so far. After a refusal nothing is said of it.
///
/// # Errors
///
/// The first fault from the left, with the place of the name with which the outermost replacement
/// around it began: ArgCount and OpenCall for a call, BadPaste for a `##`, MacroLimit for the
/// 1,000,001st replacement and for arguments 201 deep in arguments. NoMemory where memory is refused.
#[tactic(auto, unfolding(crate::specs::Expand::expand_list))]
pub fn expand(
    alloc: Global,
    table: &MacroTable,
    names: &[Name],
    toks: &[PpTok],
    count: &mut u32,
) -> Result<Items<PpTok>, ExpandFault>
    ensures expands { Expands (expand_list table.now names.now count.old toks.now) result count.new }
    ensures count { OnOk result (count.old ≤ count.new) }
{
    Expander {
        alloc,
        table,
        names,
        depth: DEPTH,
        inner: expand_argument,
    }
    .walk(None, toks, count)
}

#[cfg(test)]
mod tests {
    use super::*;
    use crate::table::DefineFault;
    use pp_tok::lines::{pp_tokens, text_tokens};

    // A name, the parameters of a function-like macro, and the body with the blank before it.
    type Definition<'a> = (&'a [u8], Option<&'a [&'a [u8]]>, &'a [u8]);

    fn macro_from(alloc: Global, (name, params, body): Definition) -> Result<Macro, NoMemory> {
        let mut names = Items::new(alloc);
        for param in params.unwrap_or(&[]) {
            names.push(Name::from_bytes(alloc, param)?)?;
        }
        Ok(Macro {
            name: Name::from_bytes(alloc, name)?,
            params: if params.is_some() { Some(names) } else { None },
            body: text_tokens(alloc, body).map_err(|_| NoMemory)?,
        })
    }

    fn table_from(alloc: Global, macros: &[Definition]) -> Result<MacroTable, NoMemory> {
        let mut table = MacroTable::new(alloc);
        for definition in macros {
            let new = macro_from(alloc, *definition)?;
            table.define(new).map_err(|_| NoMemory)?;
        }
        Ok(table)
    }

    // The spellings, parted by spaces.
    fn spellings(alloc: Global, tokens: &[PpTok]) -> Result<Vec<u8>, NoMemory> {
        let mut text = Vec::new(alloc);
        for token in tokens {
            text.extend_from_slice(token.spelling.bytes())?;
            text.push(b' ')?;
        }
        Ok(text)
    }

    // Expands a text of file 0 from a count of 5 on, and gives the spellings.
    fn expanded(
        alloc: Global,
        macros: &[Definition],
        text: &[u8],
        count: &mut u32,
    ) -> Result<Vec<u8>, ExpandFault> {
        let files = [Name::from_bytes(alloc, b"a\"b")?];
        let table = table_from(alloc, macros)?;
        let toks = pp_tokens(alloc, 0, text).map_err(|_| NoMemory)?;
        let found = expand(alloc, &table, &files, toks.as_slice(), count)?;
        Ok(spellings(alloc, found.as_slice())?)
    }

    // Examples of ANSI C X3.159-1989, 3.8.3.5.
    const GLUE: &[Definition<'static>] = &[
        (b"str", Some(&[b"s"]), b" # s"),
        (b"xstr", Some(&[b"s"]), b" str(s)"),
        (
            b"debug",
            Some(&[b"s", b"t"]),
            b" printf(\"x\" # s \"= %d, x\" # t, x ## s, x ## t)",
        ),
        (b"INCFILE", Some(&[b"n"]), b" vers ## n"),
        (b"glue", Some(&[b"a", b"b"]), b" a ## b"),
        (b"xglue", Some(&[b"a", b"b"]), b" glue(a, b)"),
        (b"HIGHLOW", None, b" \"hello\""),
        (b"LOW", None, b" LOW \", world\""),
    ];

    const MANY: &[Definition<'static>] = &[
        (b"x", None, b" 3"),
        (b"f", Some(&[b"a"]), b" f(x * (a))"),
        (b"g", None, b" f"),
        (b"h", None, b" g(~"),
        (b"w", None, b" 0,1"),
        (b"t", Some(&[b"a"]), b" a"),
        (b"n", Some(&[]), b" 1"),
    ];

    const HASH: &[Definition<'static>] = &[
        (b"hash_hash", None, b" # ## #"),
        (b"mkstr", Some(&[b"a"]), b" # a"),
        (b"in_between", Some(&[b"a"]), b" mkstr(a)"),
        (b"join", Some(&[b"c", b"d"]), b" in_between(c hash_hash d)"),
    ];

    // Macros, a text, the spellings that it expands to, and the count of replacements.
    #[test]
    fn expands(rt: HostRuntime) {
        let three: &[Definition] = &[(b"t", Some(&[b"x", b"y", b"z"]), b" x ## y ## z")];
        let spelled: &[Definition] = &[(b"s", Some(&[b"a"]), b" #a")];
        let lines: &[Definition] = &[
            (b"l", None, b" __LINE__ __STDC__"),
            (b"k", Some(&[b"a"]), b" l a"),
        ];
        let table: [(&[Definition], &[u8], &[u8], u32); 17] = [
            (
                &[(b"f", Some(&[b"x"]), b" f(x+1)")],
                b"f(f(2))",
                b"f ( f ( 2 + 1 ) + 1 ) ",
                2,
            ),
            (&[(b"x", None, b" x y")], b"x", b"x y ", 1),
            (spelled, b"s( 1  +  2 )", b"\"1 + 2\" ", 1),
            (spelled, b"s(a\nb)", b"\"a b\" ", 1),
            (
                spelled,
                b"s(\"a\\n\" '\"'\\)",
                b"\"\\\"a\\\\n\\\" '\\\"'\\\" ",
                1,
            ),
            (&[(b"f", Some(&[]), b" 1")], b"f ( ) f", b"1 f ", 1),
            (
                three,
                b"t(1,2,3) t(,4,5) t(6,,7) t(8,9,)",
                b"123 45 67 89 ",
                4,
            ),
            (three, b"t(10,,) t(,11,) t(,,12) t(,,)", b"10 11 12 ", 4),
            (
                GLUE,
                b"debug(1, 2)",
                b"printf ( \"x\" \"1\" \"= %d, x\" \"2\" , x1 , x2 ) ",
                1,
            ),
            (GLUE, b"xstr(INCFILE(2))", b"\"vers2\" ", 3),
            (
                GLUE,
                b"glue(HIGH, LOW); xglue(HIGH, LOW)",
                b"\"hello\" ; \"hello\" \", world\" ",
                6,
            ),
            (HASH, b"join(x, y)", b"\"x ## y\" ", 4),
            (
                MANY,
                b"f(2 * (f(2)))",
                b"f ( 3 * ( 2 * ( f ( 3 * ( 2 ) ) ) ) ) ",
                4,
            ),
            (
                MANY,
                b"g(x+(3,4)-w)",
                b"f ( 3 * ( 3 + ( 3 , 4 ) - 0 , 1 ) ) ",
                5,
            ),
            (MANY, b"h 5) t(t)(1)", b"f ( 3 * ( ~ 5 ) ) t ( 1 ) ", 5),
            (lines, b"__FILE__\nk(__LINE__\n)", b"\"a\\\"b\" 2 1 2 ", 6),
            (
                &[(b"o", Some(&[b"a"]), b" ##a b##")],
                b"o(1)",
                b"## 1 b ## ",
                1,
            ),
        ];
        for (macros, text, expected, replacements) in table {
            let mut count = 5u32;
            match expanded(rt.alloc(), macros, text, &mut count) {
                Ok(found) => assert_eq!(rt; found.as_slice(), expected),
                Err(fault) => assert!(rt; false, "{fault:?}"),
            }
            assert_eq!(rt; count.wrapping_sub(5), replacements);
        }
    }

    // Macros, a text, the count before, and the fault with its line.
    #[test]
    fn refuses(rt: HostRuntime) {
        use ExpandFault::{ArgCount, BadPaste, MacroLimit, OpenCall};
        let at = |line: u32| Place { file: 0, line };
        let table: [(&[Definition<'static>], &[u8], u32, ExpandFault); 8] = [
            (MANY, b"\nn(2)", 0, ArgCount(at(2))),
            (GLUE, b"glue((2, 3))", 0, ArgCount(at(1))),
            (GLUE, b"\nstr(\n) xstr(\nglue(2\n))", 0, ArgCount(at(3))),
            (MANY, b"f(1) f(", 0, OpenCall(at(1))),
            (MANY, b"\n\nh", 0, OpenCall(at(3))),
            (GLUE, b"\nglue(1, +)", 0, BadPaste(at(2))),
            (MANY, b"x\nx", 999_999, MacroLimit(at(2))),
            (MANY, b"y\nx", 4_000_000_000, MacroLimit(at(2))),
        ];
        for (macros, text, before, expected) in table {
            let mut count = before;
            let found = expanded(rt.alloc(), macros, text, &mut count);
            assert_eq!(rt; found.err(), Some(expected));
        }
    }

    // Arguments in arguments, so many deep.
    #[test]
    fn nests(rt: HostRuntime) -> Result<(), NoMemory> {
        for (depth, fits) in [(200u32, true), (201, false)] {
            let mut text = Vec::new(rt.alloc());
            for _ in 0..depth {
                text.extend_from_slice(b"t(")?;
            }
            text.push(b'1')?;
            for _ in 0..depth {
                text.push(b')')?;
            }
            let mut count = 0u32;
            let found = expanded(rt.alloc(), MANY, &text, &mut count);
            assert_eq!(rt; found.is_ok(), fits);
        }
        Ok(())
    }

    // Two definitions, and what the second one answers.
    #[test]
    fn defines(rt: HostRuntime) -> Result<(), NoMemory> {
        let again = Err(DefineFault::Redefinition);
        let table: [(Definition, Definition, Result<(), DefineFault>); 9] = [
            ((b"a", None, b" b"), (b"a", None, b"b"), Ok(())),
            ((b"a", None, b" b c"), (b"a", None, b" b  c"), Ok(())),
            ((b"a", None, b" b+c"), (b"a", None, b" b +c"), again),
            ((b"a", None, b" b"), (b"a", None, b" c"), again),
            ((b"a", None, b" b"), (b"a", None, b" b b"), again),
            ((b"a", None, b""), (b"a", Some(&[]), b""), again),
            (
                (b"a", Some(&[b"x"]), b" x"),
                (b"a", Some(&[b"x"]), b"x"),
                Ok(()),
            ),
            (
                (b"a", Some(&[b"x"]), b" 1"),
                (b"a", Some(&[b"y"]), b" 1"),
                again,
            ),
            ((b"a", None, b" 1"), (b"b", None, b" 2"), Ok(())),
        ];
        for (first, second, expected) in table {
            let mut known = table_from(rt.alloc(), &[first])?;
            assert_eq!(rt; known.define(macro_from(rt.alloc(), second)?), expected);
            known.undefine(b"b");
            assert!(rt; known.find(b"a").is_some());
            assert!(rt; known.find(b"b").is_none());
            known.undefine(b"a");
            assert!(rt; known.find(b"a").is_none());
            assert_eq!(rt;
                known.define(macro_from(rt.alloc(), (b"a", None, b" 7"))?),
                Ok(())
            );
        }
        Ok(())
    }
}
