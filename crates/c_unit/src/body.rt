//! What a block has so far.

ghost use Rattle.std.specs.Prelude.{◌≡◌, ◌++◌, ◌∷◌, [], IfOk, true, false};
ghost use Rattle.c_tree.specs.Heights as heights;
ghost use Rattle.c_tree.specs.Heights.{Below, tall};
ghost use Rattle.c_decl.specs.Made.{Made};
ghost use Rattle.c_decl.specs.Nests.{Small};

use c_decl::fault::Halt;
use c_decl::heights;
use c_tree::at::At;
use c_tree::declaration::Declaration;
use c_tree::height::{Heights, Tall};
use c_tree::stmt::{Block, Stmt};
use sqlite_items::{Boxed, Items};
use std::alloc::Global;

/// What a block has so far.
#[derive(Drop)]
pub struct SoFar {
    /// Whether statements have begun.
    pub has_begun: bool,
    /// In order.
    pub declarations: Items<Declaration>,
    /// In order.
    pub statements: Items<Stmt>,
    /// How deep it nests.
    pub height: Heights,
}

impl SoFar {
    /// Nothing yet.
    pub fn new(alloc: Global) -> SoFar
        ensures { result ≡ record { has_begun = false; declarations = []; statements = []; height = heights.none } }
    {
        SoFar {
            has_begun: false,
            declarations: Items::new(alloc),
            statements: Items::new(alloc),
            height: heights::none(),
        }
    }

    /// With a declaration more.
    pub fn declare(mut self, room: Heights, next: Tall<Declaration>) -> Result<SoFar, Halt>
        requires before { Below self.height room }
        requires next { Below next.height room }
        ensures made { Made (record { has_begun = false; declarations = self.declarations ++ next.tree ∷ []; statements = self.statements; height = heights.join self.height next.height }) result }
        ensures low { IfOk result (λ x. Below x.height room) }
    {
        self.declarations.push(next.tree)?;
        Ok(SoFar {
            has_begun: false,
            declarations: self.declarations,
            statements: self.statements,
            height: heights::join(room, self.height, next.height),
        })
    }

    /// With a statement more.
    pub fn go_on(mut self, room: Heights, next: Tall<Boxed<Stmt>>) -> Result<SoFar, Halt>
        requires before { Below self.height room }
        requires next { Below next.height room }
        ensures made { Made (record { has_begun = true; declarations = self.declarations; statements = self.statements ++ next.tree ∷ []; height = heights.join self.height next.height }) result }
        ensures low { IfOk result (λ x. Below x.height room) }
    {
        self.statements.push(next.tree.into_inner())?;
        Ok(SoFar {
            has_begun: true,
            declarations: self.declarations,
            statements: self.statements,
            height: heights::join(room, self.height, next.height),
        })
    }

    /// The block.
    pub fn close(
        self,
        alloc: Global,
        room: Heights,
        at: At,
        closing: usize,
    ) -> Result<Tall<Boxed<Block>>, Halt>
        requires small { Small room }
        requires before { Below self.height room }
        ensures made { Made (tall (record { at = at; declarations = self.declarations; statements = self.statements; closing = closing }) (heights.raise heights.statement self.height)) result }
        ensures low { IfOk result (λ x. Below x.height (heights.raise heights.statement room)) }
    {
        let height = heights::raise_statement(room, self.height);
        let tree = Boxed::new(
            alloc,
            Block {
                at,
                declarations: self.declarations,
                statements: self.statements,
                closing,
            },
        )?;
        Ok(Tall { tree, height })
    }
}
