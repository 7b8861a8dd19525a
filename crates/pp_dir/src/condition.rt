//! Conditions of `#if` and `#elif`.
ghost use Rattle.std.specs.Prelude.{◌≡◌};
ghost use Rattle.pp_dir.specs.Nests.{Nests};
ghost use Rattle.pp_dir.specs.Reading as spec;
ghost use Rattle.pp_dir.specs.Worth.{Reads, ReadsChoice};

use crate::constant::{character_value, number_value};
use crate::cursor::Cursor;
use crate::operator::unary_op;
use crate::part::Part;
use crate::value::Value;
use crate::worth::Worth;
use pp_macro::tokens::is_mark;
use pp_tok::token::{PpKind, PpTok};

/// How deep a condition may be.
pub const LIMIT: usize = 200;

/// The operators that bind the least.
const LOOSEST: usize = 10;

// The value of a name, a number or a character constant.
fn value_of(tok: &PpTok) -> Option<Value>
    ensures { result ≡ spec.value_of tok.now }
{
    match tok.kind {
        PpKind::Ident => Some(Value {
            word: 0,
            unsigned: false,
        }),
        PpKind::Number => number_value(tok.spelling.bytes()),
        PpKind::Char => character_value(tok.spelling.bytes()),
        _ => None,
    }
}

/// The rules, over a function that reads their parts.
#[derive(Clone, Copy)]
struct Reader<F> {
    /// How deep the parts may be.
    depth: usize,
    part: F,
}

impl<F: Fn(&mut Cursor<'_>, usize, Part) -> Option<Worth>> Reader<F> {
    fn part(&self, cursor: &mut Cursor<'_>, part: Part) -> Option<Worth>
        requires { Nests self.now.depth (F.pre self.now.part) (F.post self.now.part) }
        ensures { Reads (spec.part self.now.depth part cursor.old) result cursor.new }
    {
        (self.part)(cursor, self.depth, part)
    }

    #[tactic(auto, using(crate::proofs::Worths::grouped_reads))]
    // An expression in parentheses, behind the opening one.
    fn grouped(&self, cursor: &mut Cursor<'_>) -> Option<Worth>
        requires { Nests self.now.depth (F.pre self.now.part) (F.post self.now.part) }
        ensures { Reads (spec.grouped_at (spec.part self.now.depth Part.Whole) cursor.old) result cursor.new }
    {
        let inner = self.part(cursor, Part::Whole)?;
        if !cursor.eat(b")") {
            return None;
        }
        Some(inner.grouped())
    }

    #[tactic(auto, using(crate::proofs::Worths::unary_reads, crate::proofs::Worths::constant_reads))]
    fn operand(&self, cursor: &mut Cursor<'_>) -> Option<Worth>
        requires { Nests self.now.depth (F.pre self.now.part) (F.post self.now.part) }
        ensures { Reads (spec.operand_at (spec.part self.now.depth Part.Operand) (spec.part self.now.depth Part.Whole) cursor.old) result cursor.new }
    {
        let tok = cursor.take()?;
        if let Some(op) = unary_op(tok) {
            return Some(self.part(cursor, Part::Operand)?.unary(op));
        }
        if is_mark(tok, b"(") {
            return self.grouped(cursor);
        }
        Some(Worth::constant(value_of(tok)?))
    }

    #[tactic(auto, using(crate::proofs::Worths::ranked_is_operand, crate::proofs::Worths::ranked_fails, crate::proofs::Worths::chain_starts, crate::proofs::Worths::chain_goes, crate::proofs::Worths::chain_stops, crate::proofs::Worths::chain_fails, crate::proofs::Worths::chain_is_long))]
    // Operands with operators of at most this rank between them.
    fn ranked(&self, cursor: &mut Cursor<'_>, rank: usize) -> Option<Worth>
        requires { Nests self.now.depth (F.pre self.now.part) (F.post self.now.part) }
        ensures { Reads (spec.ranked (spec.operand_at (spec.part self.now.depth Part.Operand) (spec.part self.now.depth Part.Whole)) self.now.depth rank cursor.old) result cursor.new }
    {
        if rank == 0 {
            return self.operand(cursor);
        }
        let mut left = self.ranked(cursor, rank - 1)?;
        let mut turns = self.depth;
        while let Some(op) = cursor.ranked_op(rank) {
            if turns == 0 {
                return None;
            }
            turns -= 1;
            cursor.skip();
            let right = self.ranked(cursor, rank - 1)?;
            left = left.binary(op, right);
        }
        Some(left)
    }

    #[tactic(auto, using(crate::proofs::Worths::choice_reads))]
    // The rest of a choice, behind the question mark.
    fn chosen(&self, cursor: &mut Cursor<'_>, test: Worth) -> Option<Worth>
        requires { Nests self.now.depth (F.pre self.now.part) (F.post self.now.part) }
        ensures { ReadsChoice (spec.part self.now.depth Part.Whole) test cursor.old result cursor.new }
    {
        let yes = self.part(cursor, Part::Whole)?;
        if !cursor.eat(b":") {
            return None;
        }
        let no = self.part(cursor, Part::Whole)?;
        Some(test.choice(yes, no))
    }

    #[tactic(auto, using(crate::proofs::Worths::whole_ends, crate::proofs::Worths::whole_goes))]
    fn whole(&self, cursor: &mut Cursor<'_>) -> Option<Worth>
        requires { Nests self.now.depth (F.pre self.now.part) (F.post self.now.part) }
        ensures { Reads (spec.whole_at self.now.depth (spec.part self.now.depth Part.Operand) (spec.part self.now.depth Part.Whole) cursor.old) result cursor.new }
    {
        let test = self.ranked(cursor, LOOSEST)?;
        if !cursor.eat(b"?") {
            return Some(test);
        }
        self.chosen(cursor, test)
    }

    fn read(&self, cursor: &mut Cursor<'_>, part: Part) -> Option<Worth>
        requires { Nests self.now.depth (F.pre self.now.part) (F.post self.now.part) }
        ensures { Reads (spec.part_at self.now.depth (spec.part self.now.depth Part.Operand) (spec.part self.now.depth Part.Whole) part cursor.old) result cursor.new }
    {
        match part {
            Part::Operand => self.operand(cursor),
            Part::Whole => self.whole(cursor),
        }
    }
}

// What is at most so deep.
#[tactic(auto, using(crate::proofs::Worths::part_steps), unfolding(crate::specs::Reading::part))]
fn part(cursor: &mut Cursor<'_>, depth: usize, kind: Part) -> Option<Worth>
    ensures { Reads (spec.part depth kind cursor.old) result cursor.new }
{
    if depth == 0 {
        return None;
    }
    Reader {
        depth: depth - 1,
        part,
    }
    .read(cursor, kind)
}

/// Whether a condition of these tokens holds, in which names are 0. None where they are no condition,
/// nest deeper than 200, or divide by zero, shift by 32 or more, or take a quotient that `int` doesn't hold, in
/// a part that is evaluated.
#[tactic(auto, unfolding(crate::specs::Reading::condition_of))]
pub fn condition_of(toks: &[PpTok]) -> Option<bool>
    ensures { result ≡ spec.condition_of toks.now }
{
    let mut cursor = Cursor::new(toks);
    let worth = part(&mut cursor, LIMIT, Part::Whole)?;
    if !cursor.is_at_end() || worth.depth > 200 {
        return None;
    }
    Some(worth.word? != 0)
}
