//! Nodes, each with how deep it nests.

ghost use Rattle.std.specs.Prelude.{◌≡◌, [], ◌∷◌, ◌++◌, IfOk, Some, None};
ghost use Rattle.c_tree.specs.Begins as begins;
ghost use Rattle.c_tree.specs.Heights as heights;
ghost use Rattle.c_tree.specs.Heights.{Below, tall};
ghost use Rattle.c_tree.specs.Specs as specs;
ghost use Rattle.c_decl.specs.Entries.{with_next};
ghost use Rattle.c_decl.specs.Grammar as grammar;
ghost use Rattle.c_decl.specs.Made.{Made};
ghost use Rattle.c_decl.specs.Nests.{Small};

use c_decl::fault::Halt;
use c_decl::heights;
use c_decl::kind::{Control, Jump};
use c_decl::nodes::{declarator_at, expr_at};
use c_tree::at::At;
use c_tree::declaration::{Declaration, Init, InitDeclarator};
use c_tree::declaring::Declaring;
use c_tree::expr::{Declarator, Expr, Specs};
use c_tree::height::{Heights, Tall};
use c_tree::stmt::{Block, Definition, External, ForHead, Stmt};
use sqlite_items::{Boxed, Items};
use std::alloc::Global;

/// A statement over parts of this height.
pub fn statement(
    alloc: Global,
    room: Heights,
    tree: Stmt,
    parts: Heights,
) -> Result<Tall<Boxed<Stmt>>, Halt>
    requires small { Small room }
    requires parts { Below parts room }
    ensures made { Made (tall tree (heights.raise heights.statement parts)) result }
    ensures low { IfOk result (λ x. Below x.height (heights.raise heights.statement room)) }
{
    Ok(Tall {
        tree: Boxed::new(alloc, tree)?,
        height: heights::raise_statement(room, parts),
    })
}

/// A statement over two parts.
pub fn over_two(
    alloc: Global,
    room: Heights,
    tree: Stmt,
    a: Heights,
    b: Heights,
) -> Result<Tall<Boxed<Stmt>>, Halt>
    requires small { Small room }
    requires a { Below a room }
    requires b { Below b room }
    ensures made { Made (tall tree (heights.raise heights.statement (heights.join a b))) result }
    ensures low { IfOk result (λ x. Below x.height (heights.raise heights.statement room)) }
{
    statement(alloc, room, tree, heights::join(room, a, b))
}

/// A statement with a test and a statement under it.
pub fn controlled(
    alloc: Global,
    room: Heights,
    at: At,
    how: Control,
    test: Tall<Boxed<Expr>>,
    body: Tall<Boxed<Stmt>>,
) -> Result<Tall<Boxed<Stmt>>, Halt>
    requires small { Small room }
    requires test { Below test.height room }
    requires body { Below body.height room }
    ensures made { Made (tall (grammar.controlled how at test.tree body.tree) (heights.raise heights.statement (heights.join test.height body.height))) result }
    ensures low { IfOk result (λ x. Below x.height (heights.raise heights.statement room)) }
{
    let tree = match how {
        Control::Switch => Stmt::Switch(at, test.tree, body.tree),
        Control::While => Stmt::While(at, test.tree, body.tree),
    };
    over_two(alloc, room, tree, test.height, body.height)
}

/// A statement that is a keyword.
pub fn jumping(alloc: Global, room: Heights, at: At, how: Jump) -> Result<Tall<Boxed<Stmt>>, Halt>
    requires small { Small room }
    ensures made { Made (tall (grammar.jumping how at) (heights.raise heights.statement heights.none)) result }
    ensures low { IfOk result (λ x. Below x.height (heights.raise heights.statement room)) }
{
    let tree = match how {
        Jump::Continue => Stmt::Continue(at),
        Jump::Break => Stmt::Break(at),
    };
    statement(alloc, room, tree, heights::none())
}

/// What stands between the parentheses of a `for`.
pub fn for_head(
    alloc: Global,
    room: Heights,
    start: Tall<Option<Boxed<Expr>>>,
    test: Tall<Option<Boxed<Expr>>>,
    step: Tall<Option<Boxed<Expr>>>,
) -> Result<Tall<Boxed<ForHead>>, Halt>
    requires start { Below start.height room }
    requires test { Below test.height room }
    requires step { Below step.height room }
    ensures made { Made (tall (record { start = start.tree; test = test.tree; step = step.tree }) (heights.join start.height (heights.join test.height step.height))) result }
    ensures low { IfOk result (λ x. Below x.height room) }
{
    let height = heights::join(
        room,
        start.height,
        heights::join(room, test.height, step.height),
    );
    let tree = Boxed::new(
        alloc,
        ForHead {
            start: start.tree,
            test: test.tree,
            step: step.tree,
        },
    )?;
    Ok(Tall { tree, height })
}

fn declarator_of(x: Declaring) -> Boxed<Declarator>
    ensures { result ≡ x.tree }
{
    x.tree
}

/// A declarator with an initializer.
pub fn initialized(
    room: Heights,
    x: Tall<Declaring>,
    init: Tall<Boxed<Init>>,
) -> Tall<InitDeclarator>
    requires x { Below x.height room }
    requires init { Below init.height room }
    ensures made { result ≡ tall (record { declarator = x.tree.tree; init = Some init.tree }) (heights.join x.height init.height) }
    ensures low { Below result.height room }
{
    let height = heights::join(room, x.height, init.height);
    let declarator = declarator_of(x.tree);
    Tall {
        tree: InitDeclarator {
            declarator,
            init: Some(init.tree),
        },
        height,
    }
}

/// A declarator without an initializer.
pub fn plain(x: Tall<Declaring>) -> Tall<InitDeclarator>
    ensures made { result ≡ tall (record { declarator = x.tree.tree; init = None }) x.height }
{
    let height = x.height;
    let declarator = declarator_of(x.tree);
    Tall {
        tree: InitDeclarator {
            declarator,
            init: None,
        },
        height,
    }
}

/// One declarator.
pub fn one_declarator(
    alloc: Global,
    first: Tall<InitDeclarator>,
) -> Result<Tall<Items<InitDeclarator>>, Halt>
    ensures made { Made (tall (first.tree ∷ []) first.height) result }
{
    let mut tree = Items::new(alloc);
    tree.push(first.tree)?;
    Ok(Tall {
        tree,
        height: first.height,
    })
}

/// One declarator more.
pub fn more_declarators(
    room: Heights,
    mut row: Tall<Items<InitDeclarator>>,
    next: Tall<InitDeclarator>,
) -> Result<Tall<Items<InitDeclarator>>, Halt>
    requires row { Below row.height room }
    requires next { Below next.height room }
    ensures made { Made (with_next row next) result }
    ensures low { IfOk result (λ x. Below x.height room) }
{
    row.tree.push(next.tree)?;
    Ok(Tall {
        tree: row.tree,
        height: heights::join(room, row.height, next.height),
    })
}

/// A declaration.
pub fn declaration(
    room: Heights,
    specs: Tall<Specs>,
    row: Tall<Items<InitDeclarator>>,
) -> Tall<Declaration>
    requires specs { Below specs.height room }
    requires row { Below row.height room }
    ensures made { result ≡ tall (record { specs = specs.tree; declarators = row.tree }) (heights.join specs.height row.height) }
    ensures low { Below result.height room }
{
    Tall {
        tree: Declaration {
            specs: specs.tree,
            declarators: row.tree,
        },
        height: heights::join(room, specs.height, row.height),
    }
}

/// A declaration without declarators.
pub fn bare(alloc: Global, specs: Tall<Specs>) -> Tall<Declaration>
    ensures made { result ≡ tall (record { specs = specs.tree; declarators = [] }) specs.height }
{
    Tall {
        tree: Declaration {
            specs: specs.tree,
            declarators: Items::new(alloc),
        },
        height: specs.height,
    }
}

/// No expression.
pub fn nothing() -> Tall<Option<Boxed<Expr>>>
    ensures made { result ≡ tall None heights.none }
{
    Tall {
        tree: None,
        height: heights::none(),
    }
}

/// An expression.
pub fn something(x: Tall<Boxed<Expr>>) -> Tall<Option<Boxed<Expr>>>
    ensures made { result ≡ tall (Some x.tree) x.height }
{
    Tall {
        tree: Some(x.tree),
        height: x.height,
    }
}

/// An expression statement: it begins with the expression, or else at its semicolon.
pub fn expressed(
    alloc: Global,
    room: Heights,
    at: At,
    x: Tall<Option<Boxed<Expr>>>,
) -> Result<Tall<Boxed<Stmt>>, Halt>
    requires small { Small room }
    requires x { Below x.height room }
    ensures made { Made (tall (Stmt.Expression (begins.expr_or at x.tree) x.tree) (heights.raise heights.statement x.height)) result }
    ensures low { IfOk result (λ x. Below x.height (heights.raise heights.statement room)) }
{
    let first = match &x.tree {
        Some(tree) => expr_at(tree.get()),
        None => at,
    };
    statement(alloc, room, Stmt::Expression(first, x.tree), x.height)
}

/// A block as a statement.
pub fn compound(alloc: Global, x: Tall<Boxed<Block>>) -> Result<Tall<Boxed<Stmt>>, Halt>
    ensures made { Made (tall (Stmt.Block x.tree) x.height) result }
{
    Ok(Tall {
        tree: Boxed::new(alloc, Stmt::Block(x.tree))?,
        height: x.height,
    })
}

/// One declaration.
pub fn one_declaration(
    alloc: Global,
    first: Tall<Declaration>,
) -> Result<Tall<Items<Declaration>>, Halt>
    ensures made { Made (tall (first.tree ∷ []) first.height) result }
{
    let mut tree = Items::new(alloc);
    tree.push(first.tree)?;
    Ok(Tall {
        tree,
        height: first.height,
    })
}

/// One declaration more.
pub fn more_declarations(
    room: Heights,
    mut row: Tall<Items<Declaration>>,
    next: Tall<Declaration>,
) -> Result<Tall<Items<Declaration>>, Halt>
    requires row { Below row.height room }
    requires next { Below next.height room }
    ensures made { Made (with_next row next) result }
    ensures low { IfOk result (λ x. Below x.height room) }
{
    row.tree.push(next.tree)?;
    Ok(Tall {
        tree: row.tree,
        height: heights::join(room, row.height, next.height),
    })
}

/// No declarations.
pub fn no_declarations() -> Tall<Option<Items<Declaration>>>
    ensures made { result ≡ tall None heights.none }
{
    Tall {
        tree: None,
        height: heights::none(),
    }
}

/// Declarations.
pub fn some_declarations(row: Tall<Items<Declaration>>) -> Tall<Option<Items<Declaration>>>
    ensures made { result ≡ tall (Some row.tree) row.height }
{
    Tall {
        tree: Some(row.tree),
        height: row.height,
    }
}

/// A declaration in a unit.
pub fn declared(x: Tall<Declaration>) -> Tall<External>
    ensures made { result ≡ tall (External.Declaration x.tree) x.height }
{
    Tall {
        tree: External::Declaration(x.tree),
        height: x.height,
    }
}

/// A function. `old` tells how deep the declarations before its body nest.
pub fn function(
    room: Heights,
    specs: Tall<Specs>,
    x: Tall<Declaring>,
    old: Heights,
    body: Tall<Boxed<Block>>,
) -> Tall<External>
    requires specs { Below specs.height room }
    requires x { Below x.height room }
    requires old { Below old room }
    requires body { Below body.height room }
    ensures made { result ≡ tall (External.Function (record { specs = specs.tree; declarator = x.tree.tree; body = body.tree })) (heights.join specs.height (heights.join x.height (heights.join old body.height))) }
    ensures low { Below result.height room }
{
    let inner = heights::join(room, x.height, heights::join(room, old, body.height));
    let height = heights::join(room, specs.height, inner);
    let declarator = declarator_of(x.tree);
    Tall {
        tree: External::Function(Definition {
            specs: specs.tree,
            declarator,
            body: body.tree,
        }),
        height,
    }
}

/// No specifiers.
fn no_specs(alloc: Global, at: At) -> Specs
    ensures { result ≡ specs.no_specs at }
{
    Specs {
        at,
        items: Items::new(alloc),
        is_typedef: false,
        is_typed: false,
    }
}

/// A function without specifiers.
pub fn implied_function(
    alloc: Global,
    room: Heights,
    at: At,
    x: Tall<Declaring>,
    body: Tall<Boxed<Block>>,
) -> Tall<External>
    requires x { Below x.height room }
    requires body { Below body.height room }
    ensures made { result ≡ tall (External.Function (record { specs = specs.no_specs at; declarator = x.tree.tree; body = body.tree })) (heights.join x.height body.height) }
    ensures low { Below result.height room }
{
    let height = heights::join(room, x.height, body.height);
    let declarator = declarator_of(x.tree);
    Tall {
        tree: External::Function(Definition {
            specs: no_specs(alloc, at),
            declarator,
            body: body.tree,
        }),
        height,
    }
}

/// A declaration without specifiers.
pub fn implied_declaration(
    alloc: Global,
    at: At,
    x: Tall<InitDeclarator>,
) -> Result<Tall<External>, Halt>
    ensures made { Made (tall (External.Declaration (record { specs = specs.no_specs at; declarators = x.tree ∷ [] })) x.height) result }
{
    let row = one_declarator(alloc, x)?;
    Ok(Tall {
        tree: External::Declaration(Declaration {
            specs: no_specs(alloc, at),
            declarators: row.tree,
        }),
        height: row.height,
    })
}

/// Where a declarator with an initializer begins, or else what stands behind it.
pub fn begins_or(at: At, x: &InitDeclarator) -> At
    ensures { result ≡ begins.or_at at (begins.declarator_at x.now.declarator) }
{
    declarator_at(x.declarator.get()).unwrap_or(at)
}

/// One external declaration.
pub fn one_external(alloc: Global, first: Tall<External>) -> Result<Tall<Items<External>>, Halt>
    ensures made { Made (tall (first.tree ∷ []) first.height) result }
{
    let mut tree = Items::new(alloc);
    tree.push(first.tree)?;
    Ok(Tall {
        tree,
        height: first.height,
    })
}

/// One external declaration more.
pub fn more_externals(
    room: Heights,
    mut row: Tall<Items<External>>,
    next: Tall<External>,
) -> Result<Tall<Items<External>>, Halt>
    requires row { Below row.height room }
    requires next { Below next.height room }
    ensures made { Made (with_next row next) result }
    ensures low { IfOk result (λ x. Below x.height room) }
{
    row.tree.push(next.tree)?;
    Ok(Tall {
        tree: row.tree,
        height: heights::join(room, row.height, next.height),
    })
}
