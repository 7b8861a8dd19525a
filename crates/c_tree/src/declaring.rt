//! Declarators with what they declare.

use crate::expr::{Declarator, Param};
use c_names::Declared;
use qv_base::name::Name;
use sqlite_items::{Boxed, Items};

/// A declarator with what it declares.
#[derive(Drop)]
pub struct Declaring {
    /// The declarator.
    pub tree: Boxed<Declarator>,
    /// Its name, if it has one.
    pub name: Option<Name>,
    /// What its parameter list declares: of several lists the one nearest the name.
    pub params: Option<Items<Declared>>,
}

/// The parameters of a function.
#[derive(Drop)]
pub struct Params {
    /// In order.
    pub items: Items<Param>,
    /// Whether `...` stands behind them.
    pub is_variadic: bool,
}
