//! What a statement may be read as.

use c_tree::at::At;
use qv_base::name::Name;

/// What a statement may be read as.
#[derive(Drop)]
pub enum StmtPart {
    /// A statement.
    Statement,
    /// What stands behind the name of a label: where the label begins, and its name.
    BehindLabel(At, Name),
}
