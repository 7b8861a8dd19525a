//! Nodes of expressions and initializers, each with its height.

ghost use Rattle.std.specs.Prelude.{◌++◌, ◌∷◌, [], IfOk};
ghost use Rattle.c_tree.specs.Begins as begins;
ghost use Rattle.c_tree.specs.Heights as heights;
ghost use Rattle.c_tree.specs.Heights.{Below, tall};
ghost use Rattle.c_decl.specs.Made.{Made};
ghost use Rattle.c_decl.specs.Nests.{Small};

use c_decl::fault::Halt;
use c_decl::heights::{join, none, raise_expression, raise_initializer};
use c_decl::nodes::expr_at;
use c_tok::constant::Constant;
use c_tree::at::At;
use c_tree::declaration::Init;
use c_tree::expr::{Expr, Slot};
use c_tree::height::{Heights, Tall};
use c_tree::operator::{Access, Infix, Step};
use c_type::operator::BinOp;
use qv_base::name::Name;
use sqlite_items::{Boxed, Items};
use std::alloc::Global;

/// A node over parts of this height.
///
/// # Errors
///
/// Where memory is refused.
pub fn expression(
    alloc: Global,
    room: Heights,
    tree: Expr,
    parts: Heights,
) -> Result<Tall<Boxed<Expr>>, Halt>
    requires small { Small room }
    requires parts { Below parts room }
    ensures made { Made (tall tree (heights.raise heights.expression parts)) result }
    ensures low { IfOk result (λ x. Below x.height (heights.raise heights.expression room)) }
{
    Ok(Tall {
        tree: Boxed::new(alloc, tree)?,
        height: raise_expression(room, parts),
    })
}

/// A node over two parts.
///
/// # Errors
///
/// Where memory is refused.
pub fn over_two(
    alloc: Global,
    room: Heights,
    tree: Expr,
    a: Heights,
    b: Heights,
) -> Result<Tall<Boxed<Expr>>, Halt>
    requires small { Small room }
    requires a { Below a room }
    requires b { Below b room }
    ensures made { Made (tall tree (heights.raise heights.expression (heights.join a b))) result }
    ensures low { IfOk result (λ x. Below x.height (heights.raise heights.expression room)) }
{
    expression(alloc, room, tree, join(room, a, b))
}

/// A name.
///
/// # Errors
///
/// Where memory is refused.
pub fn name(alloc: Global, room: Heights, at: At, name: &Name) -> Result<Tall<Boxed<Expr>>, Halt>
    requires small { Small room }
    ensures made { Made (tall (Expr.Ident at name.now) (heights.raise heights.expression (heights.none))) result }
    ensures low { IfOk result (λ x. Below x.height (heights.raise heights.expression room)) }
{
    let copy = Name::from_bytes(alloc, name.bytes())?;
    expression(alloc, room, Expr::Ident(at, copy), none())
}

/// A constant.
///
/// # Errors
///
/// Where memory is refused.
pub fn constant(
    alloc: Global,
    room: Heights,
    at: At,
    constant: Constant,
) -> Result<Tall<Boxed<Expr>>, Halt>
    requires small { Small room }
    ensures made { Made (tall (Expr.Constant at constant.value constant.kind) (heights.raise heights.expression (heights.none))) result }
    ensures low { IfOk result (λ x. Below x.height (heights.raise heights.expression room)) }
{
    expression(
        alloc,
        room,
        Expr::Constant(at, constant.value, constant.kind),
        none(),
    )
}

/// A string.
///
/// # Errors
///
/// Where memory is refused.
pub fn text(
    alloc: Global,
    room: Heights,
    at: At,
    bytes: &Items<u8>,
) -> Result<Tall<Boxed<Expr>>, Halt>
    requires small { Small room }
    ensures made { Made (tall (Expr.Text at bytes.now) (heights.raise heights.expression (heights.none))) result }
    ensures low { IfOk result (λ x. Below x.height (heights.raise heights.expression room)) }
{
    let copy = Items::from_slice(alloc, bytes.as_slice())?;
    expression(alloc, room, Expr::Text(at, copy), none())
}

/// A call.
///
/// # Errors
///
/// Where memory is refused.
pub fn call(
    alloc: Global,
    room: Heights,
    left: Tall<Boxed<Expr>>,
    row: Tall<Items<Expr>>,
) -> Result<Tall<Boxed<Expr>>, Halt>
    requires small { Small room }
    requires left { Below left.height room }
    requires row { Below row.height room }
    ensures made { Made (tall (Expr.Call (begins.expr_at left.tree) left.tree row.tree) (heights.raise heights.expression (heights.join left.height row.height))) result }
    ensures low { IfOk result (λ x. Below x.height (heights.raise heights.expression room)) }
{
    let at = expr_at(left.tree.get());
    over_two(
        alloc,
        room,
        Expr::Call(at, left.tree, row.tree),
        left.height,
        row.height,
    )
}

/// An array and its subscript.
///
/// # Errors
///
/// Where memory is refused.
pub fn subscript(
    alloc: Global,
    room: Heights,
    left: Tall<Boxed<Expr>>,
    inner: Tall<Boxed<Expr>>,
) -> Result<Tall<Boxed<Expr>>, Halt>
    requires small { Small room }
    requires left { Below left.height room }
    requires inner { Below inner.height room }
    ensures made { Made (tall (Expr.Subscript (begins.expr_at left.tree) left.tree inner.tree) (heights.raise heights.expression (heights.join left.height inner.height))) result }
    ensures low { IfOk result (λ x. Below x.height (heights.raise heights.expression room)) }
{
    let at = expr_at(left.tree.get());
    over_two(
        alloc,
        room,
        Expr::Subscript(at, left.tree, inner.tree),
        left.height,
        inner.height,
    )
}

/// A member.
///
/// # Errors
///
/// Where memory is refused.
pub fn member(
    alloc: Global,
    room: Heights,
    left: Tall<Boxed<Expr>>,
    how: Access,
    name: Name,
) -> Result<Tall<Boxed<Expr>>, Halt>
    requires small { Small room }
    requires left { Below left.height room }
    ensures made { Made (tall (Expr.Member (begins.expr_at left.tree) how left.tree name) (heights.raise heights.expression (left.height))) result }
    ensures low { IfOk result (λ x. Below x.height (heights.raise heights.expression room)) }
{
    let at = expr_at(left.tree.get());
    expression(
        alloc,
        room,
        Expr::Member(at, how, left.tree, name),
        left.height,
    )
}

/// `++` or `--` behind its operand.
///
/// # Errors
///
/// Where memory is refused.
pub fn postfix(
    alloc: Global,
    room: Heights,
    left: Tall<Boxed<Expr>>,
    how: Step,
) -> Result<Tall<Boxed<Expr>>, Halt>
    requires small { Small room }
    requires left { Below left.height room }
    ensures made { Made (tall (Expr.Postfix (begins.expr_at left.tree) how left.tree) (heights.raise heights.expression (left.height))) result }
    ensures low { IfOk result (λ x. Below x.height (heights.raise heights.expression room)) }
{
    let at = expr_at(left.tree.get());
    expression(alloc, room, Expr::Postfix(at, how, left.tree), left.height)
}

/// Two operands with the operator between them.
///
/// # Errors
///
/// Where memory is refused.
pub fn binary(
    alloc: Global,
    room: Heights,
    op: Infix,
    left: Tall<Boxed<Expr>>,
    right: Tall<Boxed<Expr>>,
) -> Result<Tall<Boxed<Expr>>, Halt>
    requires small { Small room }
    requires left { Below left.height room }
    requires right { Below right.height room }
    ensures made { Made (tall (Expr.Binary (begins.expr_at left.tree) op left.tree right.tree) (heights.raise heights.expression (heights.join left.height right.height))) result }
    ensures low { IfOk result (λ x. Below x.height (heights.raise heights.expression room)) }
{
    let at = expr_at(left.tree.get());
    over_two(
        alloc,
        room,
        Expr::Binary(at, op, left.tree, right.tree),
        left.height,
        right.height,
    )
}

/// `? :` with its operands.
///
/// # Errors
///
/// Where memory is refused.
pub fn conditional(
    alloc: Global,
    room: Heights,
    test: Tall<Boxed<Expr>>,
    yes: Tall<Boxed<Expr>>,
    no: Tall<Boxed<Expr>>,
) -> Result<Tall<Boxed<Expr>>, Halt>
    requires small { Small room }
    requires test { Below test.height room }
    requires yes { Below yes.height room }
    requires no { Below no.height room }
    ensures made { Made (tall (Expr.Conditional (begins.expr_at test.tree) test.tree yes.tree no.tree) (heights.raise heights.expression (heights.join test.height (heights.join yes.height no.height)))) result }
    ensures low { IfOk result (λ x. Below x.height (heights.raise heights.expression room)) }
{
    let at = expr_at(test.tree.get());
    let parts = join(room, yes.height, no.height);
    over_two(
        alloc,
        room,
        Expr::Conditional(at, test.tree, yes.tree, no.tree),
        test.height,
        parts,
    )
}

/// An assignment.
///
/// # Errors
///
/// Where memory is refused.
pub fn assign(
    alloc: Global,
    room: Heights,
    op: Option<BinOp>,
    to: Tall<Boxed<Expr>>,
    value: Tall<Boxed<Expr>>,
) -> Result<Tall<Boxed<Expr>>, Halt>
    requires small { Small room }
    requires to { Below to.height room }
    requires value { Below value.height room }
    ensures made { Made (tall (Expr.Assign (begins.expr_at to.tree) op to.tree value.tree) (heights.raise heights.expression (heights.join to.height value.height))) result }
    ensures low { IfOk result (λ x. Below x.height (heights.raise heights.expression room)) }
{
    let at = expr_at(to.tree.get());
    over_two(
        alloc,
        room,
        Expr::Assign(at, op, to.tree, value.tree),
        to.height,
        value.height,
    )
}

/// Two expressions with a comma between them.
///
/// # Errors
///
/// Where memory is refused.
pub fn comma(
    alloc: Global,
    room: Heights,
    left: Tall<Boxed<Expr>>,
    right: Tall<Boxed<Expr>>,
) -> Result<Tall<Boxed<Expr>>, Halt>
    requires small { Small room }
    requires left { Below left.height room }
    requires right { Below right.height room }
    ensures made { Made (tall (Expr.Comma (begins.expr_at left.tree) left.tree right.tree) (heights.raise heights.expression (heights.join left.height right.height))) result }
    ensures low { IfOk result (λ x. Below x.height (heights.raise heights.expression room)) }
{
    let at = expr_at(left.tree.get());
    over_two(
        alloc,
        room,
        Expr::Comma(at, left.tree, right.tree),
        left.height,
        right.height,
    )
}

/// A row of one expression.
///
/// # Errors
///
/// Where memory is refused.
pub fn one(
    alloc: Global,
    room: Heights,
    first: Tall<Boxed<Expr>>,
) -> Result<Tall<Items<Expr>>, Halt>
    requires first { Below first.height room }
    ensures made { Made (tall (first.tree ∷ []) first.height) result }
    ensures low { IfOk result (λ x. Below x.height room) }
{
    let mut row = Items::new(alloc);
    row.push(first.tree.into_inner())?;
    Ok(Tall {
        tree: row,
        height: first.height,
    })
}

/// A row with one more expression.
///
/// # Errors
///
/// Where memory is refused.
pub fn longer(
    room: Heights,
    mut row: Tall<Items<Expr>>,
    next: Tall<Boxed<Expr>>,
) -> Result<Tall<Items<Expr>>, Halt>
    requires row { Below row.height room }
    requires next { Below next.height room }
    ensures made { Made (tall (row.tree ++ next.tree ∷ []) (heights.join row.height next.height)) result }
    ensures low { IfOk result (λ x. Below x.height room) }
{
    row.tree.push(next.tree.into_inner())?;
    Ok(Tall {
        tree: row.tree,
        height: join(room, row.height, next.height),
    })
}

/// A row of one initializer.
///
/// # Errors
///
/// Where memory is refused.
pub fn one_init(
    alloc: Global,
    room: Heights,
    first: Tall<Boxed<Init>>,
) -> Result<Tall<Items<Init>>, Halt>
    requires first { Below first.height room }
    ensures made { Made (tall (first.tree ∷ []) first.height) result }
    ensures low { IfOk result (λ x. Below x.height room) }
{
    let mut row = Items::new(alloc);
    row.push(first.tree.into_inner())?;
    Ok(Tall {
        tree: row,
        height: first.height,
    })
}

/// A row with one more initializer.
///
/// # Errors
///
/// Where memory is refused.
pub fn longer_init(
    room: Heights,
    mut row: Tall<Items<Init>>,
    next: Tall<Boxed<Init>>,
) -> Result<Tall<Items<Init>>, Halt>
    requires row { Below row.height room }
    requires next { Below next.height room }
    ensures made { Made (tall (row.tree ++ next.tree ∷ []) (heights.join row.height next.height)) result }
    ensures low { IfOk result (λ x. Below x.height room) }
{
    row.tree.push(next.tree.into_inner())?;
    Ok(Tall {
        tree: row.tree,
        height: join(room, row.height, next.height),
    })
}

/// An initializer over parts of this height.
///
/// # Errors
///
/// Where memory is refused.
fn initializer(
    alloc: Global,
    room: Heights,
    tree: Init,
    parts: Heights,
) -> Result<Tall<Boxed<Init>>, Halt>
    requires small { Small room }
    requires parts { Below parts room }
    ensures made { Made (tall tree (heights.raise heights.initializer parts)) result }
    ensures low { IfOk result (λ x. Below x.height (heights.raise heights.initializer room)) }
{
    Ok(Tall {
        tree: Boxed::new(alloc, tree)?,
        height: raise_initializer(room, parts),
    })
}

/// An initializer that is one value.
///
/// # Errors
///
/// Where memory is refused.
pub fn value(
    alloc: Global,
    room: Heights,
    inner: Tall<Boxed<Expr>>,
) -> Result<Tall<Boxed<Init>>, Halt>
    requires small { Small room }
    requires inner { Below inner.height room }
    ensures made { Made (tall (Init.Value inner.tree) (heights.raise heights.initializer inner.height)) result }
    ensures low { IfOk result (λ x. Below x.height (heights.raise heights.initializer room)) }
{
    initializer(alloc, room, Init::Value(inner.tree), inner.height)
}

/// Initializers in braces.
///
/// # Errors
///
/// Where memory is refused.
pub fn braces(
    alloc: Global,
    room: Heights,
    at: At,
    row: Tall<Items<Init>>,
    comma_ends: bool,
) -> Result<Tall<Boxed<Init>>, Halt>
    requires small { Small room }
    requires row { Below row.height room }
    ensures made { Made (tall (Init.Braces at row.tree comma_ends) (heights.raise heights.initializer row.height)) result }
    ensures low { IfOk result (λ x. Below x.height (heights.raise heights.initializer room)) }
{
    initializer(
        alloc,
        room,
        Init::Braces(at, row.tree, comma_ends),
        row.height,
    )
}

/// A size or a value that is read.
///
/// # Errors
///
/// Where memory is refused.
pub fn slot(
    alloc: Global,
    room: Heights,
    inner: Tall<Boxed<Expr>>,
) -> Result<Tall<Boxed<Slot>>, Halt>
    requires inner { Below inner.height room }
    ensures made { Made (tall (Slot.Read inner.tree) inner.height) result }
    ensures low { IfOk result (λ x. Below x.height room) }
{
    Ok(Tall {
        tree: Boxed::new(alloc, Slot::Read(inner.tree))?,
        height: inner.height,
    })
}
