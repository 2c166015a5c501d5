// The product table, and the product that a code names.
ghost use Rattle.std.specs.Prelude.{◌≡◌, not, eqb, ◌%◌, ◌<◌};
ghost use Rattle.products.specs.Products.{products, same_code, find, currency_of, is_bond, has_month};

// The highest price, in units of 0.0001.
pub const PRICE_LIMIT: u32 = 1_000_000;

// The two letters of a product's code. Any two bytes may be asked for.
#[derive(Clone, Copy, Debug, Default, PartialEq, Eq, Hash)]
pub struct Code(pub u8, pub u8);

#[derive(Clone, Copy, Debug, PartialEq, Eq, Hash)]
pub enum Currency {
    Aud,
    Nzd,
}

// What a product is, with the terms of its kind.
#[derive(Clone, Copy, Debug, PartialEq, Eq, Hash)]
pub enum Terms {
    Bill { face: u64, days: u64 },
    // The half-yearly coupon on 100 of face, and the number of half years.
    Bond { face: u64, coupon: u64, halves: u64 },
    // Cents for each 0.01 of the price.
    CashRate { cents: u64 },
}

#[derive(Clone, Copy, Debug, PartialEq, Eq, Hash)]
pub struct Product {
    pub code: Code,
    pub terms: Terms,
    pub currency: Currency,
    // In units of 0.0001.
    pub tick: u32,
    // The bit m is set for each month m.
    pub months: u16,
}

const QUARTERLY: u16 = 0b1_0010_0100_1000;

const MONTHLY: u16 = 0b1_1111_1111_1110;

pub const PRODUCTS: [Product; 6] = [
    Product {
        code: Code(b'I', b'R'),
        terms: Terms::Bill {
            face: 1_000_000,
            days: 90,
        },
        currency: Currency::Aud,
        tick: 100,
        months: QUARTERLY,
    },
    Product {
        code: Code(b'B', b'B'),
        terms: Terms::Bill {
            face: 1_000_000,
            days: 90,
        },
        currency: Currency::Nzd,
        tick: 100,
        months: QUARTERLY,
    },
    Product {
        code: Code(b'I', b'B'),
        terms: Terms::CashRate { cents: 2_466 },
        currency: Currency::Aud,
        tick: 50,
        months: MONTHLY,
    },
    Product {
        code: Code(b'Y', b'T'),
        terms: Terms::Bond {
            face: 100_000,
            coupon: 3,
            halves: 6,
        },
        currency: Currency::Aud,
        tick: 50,
        months: QUARTERLY,
    },
    Product {
        code: Code(b'X', b'T'),
        terms: Terms::Bond {
            face: 100_000,
            coupon: 3,
            halves: 20,
        },
        currency: Currency::Aud,
        tick: 50,
        months: QUARTERLY,
    },
    Product {
        code: Code(b'X', b'X'),
        terms: Terms::Bond {
            face: 50_000,
            coupon: 2,
            halves: 40,
        },
        currency: Currency::Aud,
        tick: 50,
        months: QUARTERLY,
    },
];

// Whether two codes have the same letters. They are compared as one number, so that the compiler searches the table by numbers.
pub fn same_code(a: Code, b: Code) -> bool
    ensures { result ≡ same_code a b }
{
    u16::from_le_bytes([a.0, a.1]) == u16::from_le_bytes([b.0, b.1])
}

// The table's lines, as the definition lists them.
fn lines() -> [Product; 6]
    ensures { result ≡ products }
{
    PRODUCTS
}

// The product that a code names. The lines are taken by value, so that the compiler knows each one's constants where it is found.
pub fn lookup(code: Code) -> Option<Product>
    ensures { result ≡ find code }
{
    for product in lines() {
        if same_code(code, product.code) {
            return Some(product);
        }
    }
    None
}

// A product's currency, Australian where there is no product.
pub fn currency_of(code: Code) -> Currency
    ensures { result ≡ currency_of code }
{
    lookup(code).map_or(Currency::Aud, |product| product.currency)
}

// Whether a code names a bond.
pub fn is_bond(code: Code) -> bool
    ensures { result ≡ is_bond code }
{
    lookup(code).is_some_and(|product| matches!(product.terms, Terms::Bond { .. }))
}

// Whether a price is not a multiple of a tick. The table's ticks, 50 and 100, are constants here: the compiler divides by a constant
// without a division, which would take several times as long.
pub fn off_tick(p: u32, tick: u32) -> bool
    ensures { result ≡ not (eqb (p % tick) 0) }
{
    match tick {
        50 => p % 50 != 0,
        100 => p % 100 != 0,
        _ => !p.is_multiple_of(tick),
    }
}

// Whether a month is one of the product's.
pub fn has_month(product: Product, month: u8) -> bool
    ensures { result ≡ has_month product month }
{
    month < 16 && (product.months >> month) % 2 == 1
}
