// The product table: codes, terms, currencies, ticks and months.
#![tactic(auto)]

mod table;

pub use table::{
    Code, Currency, PRICE_LIMIT, PRODUCTS, Product, Terms, currency_of, has_month, is_bond, lookup,
    off_tick, same_code,
};
