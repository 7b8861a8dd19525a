//! Nodes, each with how deep it nests.

ghost use Rattle.std.specs.Prelude.{◌≡◌, [], ◌∷◌, ◌++◌, IfOk, Some, None};
ghost use Rattle.c_tree.specs.Heights as heights;
ghost use Rattle.c_tree.specs.Heights.{Below, tall};
ghost use Rattle.c_tree.specs.Specs as specs;
ghost use Rattle.c_decl.specs.Entries.{with_next};
ghost use Rattle.c_decl.specs.Grammar as grammar;
ghost use Rattle.c_decl.specs.Made.{Made};
ghost use Rattle.c_decl.specs.Nests.{Small};

use crate::fault::Halt;
use crate::{heights, nodes};
use c_names::Declared;
use c_tree::at::At;
use c_tree::declaring::{Declaring, Params};
use c_tree::expr::{Declarator, Enumerator, Member, Param, Slot, Span, Spec, Specs, TypeName};
use c_tree::height::{Heights, Tall};
use c_tree::operator::PointerWord;
use qv_base::name::Name;
use sqlite_items::{Boxed, Items};
use std::alloc::Global;

/// A specifier.
pub fn spec(
    alloc: Global,
    room: Heights,
    tree: Spec,
    height: Heights,
) -> Result<Tall<Boxed<Spec>>, Halt>
    requires { Below height room }
    ensures made { Made (tall tree height) result }
    ensures low { IfOk result (λ x. Below x.height room) }
{
    Ok(Tall {
        tree: Boxed::new(alloc, tree)?,
        height,
    })
}

/// An enumerator.
pub fn enumerator(
    alloc: Global,
    room: Heights,
    at: At,
    name: Name,
    value: Option<Boxed<Slot>>,
    height: Heights,
) -> Result<Tall<Boxed<Enumerator>>, Halt>
    requires { Below height room }
    ensures made { Made (tall (record { at = at; name = name; value = value }) height) result }
    ensures low { IfOk result (λ x. Below x.height room) }
{
    Ok(Tall {
        tree: Boxed::new(alloc, Enumerator { at, name, value })?,
        height,
    })
}

/// One enumerator.
pub fn one_enumerator(
    alloc: Global,
    room: Heights,
    first: Tall<Boxed<Enumerator>>,
) -> Result<Tall<Items<Enumerator>>, Halt>
    requires { Below first.height room }
    ensures made { Made (tall (first.tree ∷ []) first.height) result }
    ensures low { IfOk result (λ x. Below x.height room) }
{
    let mut tree = Items::new(alloc);
    tree.push(first.tree.into_inner())?;
    Ok(Tall {
        tree,
        height: first.height,
    })
}

/// One enumerator more.
pub fn more_enumerators(
    room: Heights,
    mut row: Tall<Items<Enumerator>>,
    next: Tall<Boxed<Enumerator>>,
) -> Result<Tall<Items<Enumerator>>, Halt>
    requires row { Below row.height room }
    requires next { Below next.height room }
    ensures made { Made (with_next row next) result }
    ensures low { IfOk result (λ x. Below x.height room) }
{
    row.tree.push(next.tree.into_inner())?;
    Ok(Tall {
        tree: row.tree,
        height: heights::join(room, row.height, next.height),
    })
}

/// One specifier.
pub fn one_spec(alloc: Global, room: Heights, first: Tall<Boxed<Spec>>) -> Result<Tall<Specs>, Halt>
    requires { Below first.height room }
    ensures made { Made (tall (specs.one_spec first.tree) first.height) result }
    ensures low { IfOk result (λ x. Below x.height room) }
{
    let at = nodes::spec_at(first.tree.get());
    let is_typedef = nodes::is_typedef_spec(first.tree.get());
    let is_typed = nodes::is_type_spec(first.tree.get());
    let mut items = Items::new(alloc);
    items.push(first.tree.into_inner())?;
    Ok(Tall {
        tree: Specs {
            at,
            items,
            is_typedef,
            is_typed,
        },
        height: first.height,
    })
}

/// One specifier more.
pub fn more_specs(
    room: Heights,
    mut row: Tall<Specs>,
    next: Tall<Boxed<Spec>>,
) -> Result<Tall<Specs>, Halt>
    requires row { Below row.height room }
    requires next { Below next.height room }
    ensures made { Made (tall (specs.with_spec row.tree next.tree) (heights.join row.height next.height)) result }
    ensures low { IfOk result (λ x. Below x.height room) }
{
    let is_typedef = row.tree.is_typedef || nodes::is_typedef_spec(next.tree.get());
    let is_typed = row.tree.is_typed || nodes::is_type_spec(next.tree.get());
    row.tree.items.push(next.tree.into_inner())?;
    Ok(Tall {
        tree: Specs {
            at: row.tree.at,
            items: row.tree.items,
            is_typedef,
            is_typed,
        },
        height: heights::join(room, row.height, next.height),
    })
}

/// One declarator of members.
pub fn one_field(
    alloc: Global,
    room: Heights,
    first: Tall<Boxed<Declarator>>,
) -> Result<Tall<Items<Declarator>>, Halt>
    requires { Below first.height room }
    ensures made { Made (tall (first.tree ∷ []) first.height) result }
    ensures low { IfOk result (λ x. Below x.height room) }
{
    let mut tree = Items::new(alloc);
    tree.push(first.tree.into_inner())?;
    Ok(Tall {
        tree,
        height: first.height,
    })
}

/// One declarator of members more.
pub fn more_fields(
    room: Heights,
    mut row: Tall<Items<Declarator>>,
    next: Tall<Boxed<Declarator>>,
) -> Result<Tall<Items<Declarator>>, Halt>
    requires row { Below row.height room }
    requires next { Below next.height room }
    ensures made { Made (with_next row next) result }
    ensures low { IfOk result (λ x. Below x.height room) }
{
    row.tree.push(next.tree.into_inner())?;
    Ok(Tall {
        tree: row.tree,
        height: heights::join(room, row.height, next.height),
    })
}

/// One line of members.
pub fn one_member(
    alloc: Global,
    room: Heights,
    first: Tall<Boxed<Member>>,
) -> Result<Tall<Items<Member>>, Halt>
    requires { Below first.height room }
    ensures made { Made (tall (first.tree ∷ []) first.height) result }
    ensures low { IfOk result (λ x. Below x.height room) }
{
    let mut tree = Items::new(alloc);
    tree.push(first.tree.into_inner())?;
    Ok(Tall {
        tree,
        height: first.height,
    })
}

/// One line of members more.
pub fn more_members(
    room: Heights,
    mut row: Tall<Items<Member>>,
    next: Tall<Boxed<Member>>,
) -> Result<Tall<Items<Member>>, Halt>
    requires row { Below row.height room }
    requires next { Below next.height room }
    ensures made { Made (with_next row next) result }
    ensures low { IfOk result (λ x. Below x.height room) }
{
    row.tree.push(next.tree.into_inner())?;
    Ok(Tall {
        tree: row.tree,
        height: heights::join(room, row.height, next.height),
    })
}

/// Nothing in place of a declarator.
pub fn no_declarator(alloc: Global, room: Heights) -> Result<Tall<Boxed<Declarator>>, Halt>
    ensures made { Made (tall Declarator.Nothing heights.none) result }
    ensures low { IfOk result (λ x. Below x.height room) }
{
    Ok(Tall {
        tree: Boxed::new(alloc, Declarator::Nothing)?,
        height: heights::none(),
    })
}

/// A declarator, without what it declares.
pub fn only_tree(room: Heights, found: Tall<Declaring>) -> Tall<Boxed<Declarator>>
    requires { Below found.height room }
    ensures made { result ≡ tall found.tree.tree found.height }
    ensures low { Below result.height room }
{
    let declaring = found.tree;
    Tall {
        tree: declaring.tree,
        height: found.height,
    }
}

/// The members that are declared together.
pub fn member(
    alloc: Global,
    room: Heights,
    specs: Tall<Specs>,
    declarators: Tall<Items<Declarator>>,
) -> Result<Tall<Boxed<Member>>, Halt>
    requires specs { Below specs.height room }
    requires declarators { Below declarators.height room }
    ensures made { Made (tall (record { specs = specs.tree; declarators = declarators.tree }) (heights.join specs.height declarators.height)) result }
    ensures low { IfOk result (λ x. Below x.height room) }
{
    let height = heights::join(room, specs.height, declarators.height);
    let tree = Member {
        specs: specs.tree,
        declarators: declarators.tree,
    };
    Ok(Tall {
        tree: Boxed::new(alloc, tree)?,
        height,
    })
}

// A declarator around parts of this height.
fn around(
    alloc: Global,
    room: Heights,
    tree: Declarator,
    name: Option<Name>,
    params: Option<Items<Declared>>,
    parts: Heights,
) -> Result<Tall<Declaring>, Halt>
    requires small { Small room }
    requires parts { Below parts room }
    ensures made { Made (tall (record { tree = tree; name = name; params = params }) (heights.raise heights.declarator parts)) result }
    ensures low { IfOk result (λ x. Below x.height (heights.raise heights.declarator room)) }
{
    Ok(Tall {
        tree: Declaring {
            tree: Boxed::new(alloc, tree)?,
            name,
            params,
        },
        height: heights::raise_declarator(room, parts),
    })
}

/// A declarator in a box, which is cheap to carry.
pub fn boxed(
    alloc: Global,
    room: Heights,
    found: Tall<Declaring>,
) -> Result<Tall<Boxed<Declaring>>, Halt>
    requires { Below found.height (heights.raise heights.declarator room) }
    ensures made { Made found result }
    ensures low { IfOk result (λ x. Below x.height (heights.raise heights.declarator room)) }
{
    Ok(Tall {
        tree: Boxed::new(alloc, found.tree)?,
        height: found.height,
    })
}

/// The declarator in a box.
pub fn unboxed(room: Heights, found: Tall<Boxed<Declaring>>) -> Tall<Declaring>
    requires { Below found.height (heights.raise heights.declarator room) }
    ensures value { result ≡ found }
    ensures low { Below result.height (heights.raise heights.declarator room) }
{
    Tall {
        tree: found.tree.into_inner(),
        height: found.height,
    }
}

/// The nothing that an abstract declarator begins with.
#[tactic(auto, unfolding(c_tree::specs::Heights::raise))]
pub fn nothing(alloc: Global, room: Heights) -> Result<Tall<Declaring>, Halt>
    ensures made { Made (tall grammar.nothing heights.none) result }
    ensures low { IfOk result (λ x. Below x.height (heights.raise heights.declarator room)) }
{
    Ok(Tall {
        tree: Declaring {
            tree: Boxed::new(alloc, Declarator::Nothing)?,
            name: None,
            params: None,
        },
        height: heights::none(),
    })
}

/// A name.
pub fn called(alloc: Global, room: Heights, at: At, name: &Name) -> Result<Tall<Declaring>, Halt>
    requires { Small room }
    ensures made { Made (tall (grammar.called at name.now) (heights.raise heights.declarator heights.none)) result }
    ensures low { IfOk result (λ x. Below x.height (heights.raise heights.declarator room)) }
{
    let inner = Name::from_bytes(alloc, name.bytes())?;
    let name = Name::from_bytes(alloc, name.bytes())?;
    let tree = Declarator::Name(at, inner);
    around(alloc, room, tree, Some(name), None, heights::none())
}

/// No word of a pointer.
pub fn no_words(alloc: Global, room: Heights) -> Tall<Items<PointerWord>>
    ensures made { result ≡ tall [] heights.none }
    ensures low { Below result.height room }
{
    Tall {
        tree: Items::new(alloc),
        height: heights::none(),
    }
}

/// One word of a pointer more.
pub fn more_words(
    room: Heights,
    mut row: Tall<Items<PointerWord>>,
    next: PointerWord,
) -> Result<Tall<Items<PointerWord>>, Halt>
    requires { Below row.height room }
    ensures made { Made (tall (row.tree ++ next ∷ []) row.height) result }
    ensures low { IfOk result (λ x. Below x.height room) }
{
    row.tree.push(next)?;
    Ok(Tall {
        tree: row.tree,
        height: row.height,
    })
}

/// A pointer.
pub fn pointer(
    alloc: Global,
    room: Heights,
    at: At,
    words: Tall<Items<PointerWord>>,
    inner: Tall<Declaring>,
) -> Result<Tall<Declaring>, Halt>
    requires small { Small room }
    requires words { Below words.height room }
    requires inner { Below inner.height room }
    ensures made { Made (tall (grammar.around (Declarator.Pointer at words.tree inner.tree.tree) inner.tree) (heights.raise heights.declarator (heights.join words.height inner.height))) result }
    ensures low { IfOk result (λ x. Below x.height (heights.raise heights.declarator room)) }
{
    let parts = heights::join(room, words.height, inner.height);
    let Declaring { tree, name, params } = inner.tree;
    let tree = Declarator::Pointer(at, words.tree, tree);
    around(alloc, room, tree, name, params, parts)
}

/// A pointer with nothing behind it.
pub fn bare_pointer(
    alloc: Global,
    room: Heights,
    at: At,
    words: Tall<Items<PointerWord>>,
) -> Result<Tall<Declaring>, Halt>
    requires small { Small room }
    requires words { Below words.height room }
    ensures made { Made (tall (grammar.around (Declarator.Pointer at words.tree Declarator.Nothing) grammar.nothing) (heights.raise heights.declarator words.height)) result }
    ensures low { IfOk result (λ x. Below x.height (heights.raise heights.declarator room)) }
{
    let inner = Boxed::new(alloc, Declarator::Nothing)?;
    let tree = Declarator::Pointer(at, words.tree, inner);
    around(alloc, room, tree, None, None, words.height)
}

/// A declarator in parentheses.
pub fn grouped(
    alloc: Global,
    room: Heights,
    at: At,
    inner: Tall<Declaring>,
) -> Result<Tall<Declaring>, Halt>
    requires small { Small room }
    requires inner { Below inner.height room }
    ensures made { Made (tall (grammar.around (Declarator.Grouped at inner.tree.tree) inner.tree) (heights.raise heights.declarator inner.height)) result }
    ensures low { IfOk result (λ x. Below x.height (heights.raise heights.declarator room)) }
{
    let parts = inner.height;
    let Declaring { tree, name, params } = inner.tree;
    around(
        alloc,
        room,
        Declarator::Grouped(at, tree),
        name,
        params,
        parts,
    )
}

/// An array.
pub fn array(
    alloc: Global,
    room: Heights,
    at: At,
    inner: Tall<Boxed<Declaring>>,
    size: Tall<Option<Boxed<Slot>>>,
) -> Result<Tall<Boxed<Declaring>>, Halt>
    requires small { Small room }
    requires inner { Below inner.height room }
    requires size { Below size.height room }
    ensures made { Made (tall (grammar.around (Declarator.Array (grammar.begins at inner.tree) inner.tree.tree size.tree) inner.tree) (heights.raise heights.declarator (heights.join inner.height size.height))) result }
    ensures low { IfOk result (λ x. Below x.height (heights.raise heights.declarator room)) }
{
    let parts = heights::join(room, inner.height, size.height);
    let at = nodes::begins(at, inner.tree.get());
    let Declaring { tree, name, params } = inner.tree.into_inner();
    let tree = Declarator::Array(at, tree, size.tree);
    let found = around(alloc, room, tree, name, params, parts)?;
    boxed(alloc, room, found)
}

// Of several lists of parameters the one nearest the name counts.
fn nearest(params: Option<Items<Declared>>, declared: Items<Declared>) -> Option<Items<Declared>>
    ensures { result ≡ grammar.nearest params declared }
{
    match params {
        Some(near) => Some(near),
        None => Some(declared),
    }
}

/// A function.
pub fn function(
    alloc: Global,
    room: Heights,
    at: At,
    inner: Tall<Boxed<Declaring>>,
    list: Tall<Params>,
    declared: Items<Declared>,
) -> Result<Tall<Boxed<Declaring>>, Halt>
    requires small { Small room }
    requires inner { Below inner.height room }
    requires list { Below list.height room }
    ensures made { Made (tall (grammar.function_of at inner.tree list.tree declared) (heights.raise heights.declarator (heights.join inner.height list.height))) result }
    ensures low { IfOk result (λ x. Below x.height (heights.raise heights.declarator room)) }
{
    let parts = heights::join(room, inner.height, list.height);
    let at = nodes::begins(at, inner.tree.get());
    let Params { items, is_variadic } = list.tree;
    let Declaring { tree, name, params } = inner.tree.into_inner();
    let tree = Declarator::Function(at, tree, items, is_variadic);
    let found = around(alloc, room, tree, name, nearest(params, declared), parts)?;
    boxed(alloc, room, found)
}

/// A function without parameters.
pub fn bare_function(
    alloc: Global,
    room: Heights,
    at: At,
    inner: Tall<Boxed<Declaring>>,
) -> Result<Tall<Boxed<Declaring>>, Halt>
    requires small { Small room }
    requires inner { Below inner.height room }
    ensures made { Made (tall (grammar.function_of at inner.tree grammar.no_params []) (heights.raise heights.declarator (heights.join inner.height heights.none))) result }
    ensures low { IfOk result (λ x. Below x.height (heights.raise heights.declarator room)) }
{
    let list = Tall {
        tree: Params {
            items: Items::new(alloc),
            is_variadic: false,
        },
        height: heights::none(),
    };
    function(alloc, room, at, inner, list, Items::new(alloc))
}

/// A parameter.
pub fn param(
    alloc: Global,
    room: Heights,
    specs: Tall<Specs>,
    found: Tall<Declaring>,
) -> Result<Tall<Boxed<Param>>, Halt>
    requires specs { Below specs.height room }
    requires found { Below found.height room }
    ensures made { Made (tall (record { specs = specs.tree; declarator = found.tree.tree }) (heights.join specs.height found.height)) result }
    ensures low { IfOk result (λ x. Below x.height room) }
{
    let height = heights::join(room, specs.height, found.height);
    let declarator = only_tree(room, found).tree;
    let tree = Param {
        specs: specs.tree,
        declarator,
    };
    Ok(Tall {
        tree: Boxed::new(alloc, tree)?,
        height,
    })
}

/// A parameter without a declarator.
pub fn bare_param(
    alloc: Global,
    room: Heights,
    specs: Tall<Specs>,
) -> Result<Tall<Boxed<Param>>, Halt>
    requires { Below specs.height room }
    ensures made { Made (tall (record { specs = specs.tree; declarator = Declarator.Nothing }) specs.height) result }
    ensures low { IfOk result (λ x. Below x.height room) }
{
    let declarator = Boxed::new(alloc, Declarator::Nothing)?;
    let tree = Param {
        specs: specs.tree,
        declarator,
    };
    Ok(Tall {
        tree: Boxed::new(alloc, tree)?,
        height: specs.height,
    })
}

/// The name of a type.
pub fn type_name(
    alloc: Global,
    room: Heights,
    specs: Tall<Specs>,
    found: Tall<Declaring>,
) -> Result<Tall<Boxed<TypeName>>, Halt>
    requires specs { Below specs.height room }
    requires found { Below found.height room }
    ensures made { Made (tall (record { specs = specs.tree; declarator = found.tree.tree }) (heights.join specs.height found.height)) result }
    ensures low { IfOk result (λ x. Below x.height room) }
{
    let height = heights::join(room, specs.height, found.height);
    let declarator = only_tree(room, found).tree;
    let tree = TypeName {
        specs: specs.tree,
        declarator,
    };
    Ok(Tall {
        tree: Boxed::new(alloc, tree)?,
        height,
    })
}

/// The name of a type without a declarator.
pub fn bare_type_name(
    alloc: Global,
    room: Heights,
    specs: Tall<Specs>,
) -> Result<Tall<Boxed<TypeName>>, Halt>
    requires { Below specs.height room }
    ensures made { Made (tall (record { specs = specs.tree; declarator = Declarator.Nothing }) specs.height) result }
    ensures low { IfOk result (λ x. Below x.height room) }
{
    let declarator = Boxed::new(alloc, Declarator::Nothing)?;
    let tree = TypeName {
        specs: specs.tree,
        declarator,
    };
    Ok(Tall {
        tree: Boxed::new(alloc, tree)?,
        height: specs.height,
    })
}

/// One parameter.
pub fn one_param(
    alloc: Global,
    room: Heights,
    first: Tall<Boxed<Param>>,
) -> Result<Tall<Items<Param>>, Halt>
    requires { Below first.height room }
    ensures made { Made (tall (first.tree ∷ []) first.height) result }
    ensures low { IfOk result (λ x. Below x.height room) }
{
    let mut tree = Items::new(alloc);
    tree.push(first.tree.into_inner())?;
    Ok(Tall {
        tree,
        height: first.height,
    })
}

/// One parameter more.
pub fn more_params(
    room: Heights,
    mut row: Tall<Items<Param>>,
    next: Tall<Boxed<Param>>,
) -> Result<Tall<Items<Param>>, Halt>
    requires row { Below row.height room }
    requires next { Below next.height room }
    ensures made { Made (with_next row next) result }
    ensures low { IfOk result (λ x. Below x.height room) }
{
    row.tree.push(next.tree.into_inner())?;
    Ok(Tall {
        tree: row.tree,
        height: heights::join(room, row.height, next.height),
    })
}

/// A size or a value that was passed over.
pub fn span(
    alloc: Global,
    room: Heights,
    first: usize,
    count: usize,
    names: Items<Declared>,
    height: Heights,
) -> Result<Tall<Boxed<Slot>>, Halt>
    requires { Below height room }
    ensures made { Made (tall (Slot.Span (record { first = first; count = count; names = names })) height) result }
    ensures low { IfOk result (λ x. Below x.height room) }
{
    let tree = Slot::Span(Span {
        first,
        count,
        names,
    });
    Ok(Tall {
        tree: Boxed::new(alloc, tree)?,
        height,
    })
}
