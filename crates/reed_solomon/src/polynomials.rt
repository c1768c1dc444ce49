// The polynomials that number the users of a Reed-Solomon code.
ghost use Rattle.std.specs.Prelude.{◌≡◌, ◌-◌, ◌/◌, ◌%◌, ◌^◌, ◌<◌, ◌≤◌, if◌then◌else◌, Some, None, nat_le, slice_index};
ghost use Rattle.field.specs.Polynomial.{value_at};
ghost use Rattle.refusal.specs.Tables.{Answers};
ghost use Rattle.reed_solomon.specs.Polynomials.{digits, coefficient_rows};

use field::Field;
use refusal::Refusal;

// The polynomials of 2 to 8 coefficients over a field, numbered by their coefficients as digits, lowest first.
#[derive(Drop)]
pub struct Polynomials<F: Field> {
    pub field: F,
    pub coefficients: usize,
    pub count: u64,
    ghost coefficients_low: { 2 ≤ coefficients },
    ghost coefficients_high: { coefficients ≤ 8 },
    ghost counted: { count ≡ (F.Field.meaning field).size ^ coefficients },
    ghost count_high: { count ≤ 2 ^ 32 },
}

// 2^32
const MOST_USERS: u64 = 4294967296;

// base^exponent, or None where that is above 2^32.
fn power_within(base: u64, exponent: u32) -> Option<u64>
    ensures { result ≡ (if nat_le (base ^ exponent) (2 ^ 32) then Some (base ^ exponent) else None) }
{
    base.checked_pow(exponent)
        .filter(|&power| power <= MOST_USERS)
}

// The lowest digit of a number, and the number that the other digits make.
fn lowest_digit(number: u64, size: u64) -> (u8, u64)
    requires { (2 ≤ size) × (size ≤ 256) }
    ensures digit { result.0 ≡ number % size }
    ensures rest { result.1 ≡ number / size }
{
    ((number % size) as u8, number / size)
}

// The value at x of the polynomial whose coefficients are the k lowest digits of `number`: k products and k sums. By recursion,
// at most 8 deep, since the lowest digit is added last; over a slice of coefficients `bivariate` goes by a loop.
fn value_at<F: Field>(field: &F, k: usize, number: u64, x: u8) -> u8
    requires { x < (F.Field.meaning field.now).size }
    ensures { result ≡ value_at (F.Field.meaning field.now) (digits (F.Field.meaning field.now).size k number) x }
{
    if k == 0 {
        return 0;
    }
    let (digit, rest) = lowest_digit(number, field.size() as u64);
    let value = value_at(field, k - 1, rest, x);
    let product = field.product(x, value).unwrap();
    field.sum(digit, product).unwrap()
}

impl<F: Field + Drop> Polynomials<F> {
    // The polynomials of so many coefficients, of which there may be at most 8 and at most `most`.
    pub(crate) fn new(field: F, coefficients: usize, most: usize) -> Result<Polynomials<F>, Refusal>
        ensures { Answers result (coefficient_rows (F.Field.meaning field).size most coefficients) (λ p. (p.field ≡ field) × (p.coefficients ≡ coefficients)) }
    {
        if !(2..=8).contains(&coefficients) || coefficients > most {
            return Err(Refusal::CoefficientsOutOfRange(coefficients));
        }
        let count = power_within(field.size() as u64, coefficients as u32).ok_or(
            Refusal::TooManyUsers(coefficients),
        )?;
        Ok(Polynomials {
            field,
            coefficients,
            count,
        })
    }
}

impl<F: Field> Polynomials<F> {
    // The users of a code of these polynomials.
    pub(crate) fn users(&self) -> u64
        ensures { result ≡ (F.Field.meaning self.now.field).size ^ self.now.coefficients }
    {
        self.count
    }

    // Its key numbers, which are the elements.
    pub(crate) fn alphabet(&self) -> u16
        ensures { result ≡ (F.Field.meaning self.now.field).size }
    {
        self.field.size()
    }

    // At how many points two different polynomials agree at most.
    pub(crate) fn overlap(&self) -> usize
        ensures { result ≡ self.now.coefficients - 1 }
    {
        self.coefficients - 1
    }

    // The value of a user's polynomial at an element.
    pub(crate) fn value(&self, user: u64, x: u8) -> u8
        requires { x < (F.Field.meaning self.now.field).size }
        ensures { result ≡ value_at (F.Field.meaning self.now.field) (digits (F.Field.meaning self.now.field).size self.now.coefficients user) x }
    {
        value_at(&self.field, self.coefficients, user, x)
    }

    // The top coefficient of a user's polynomial.
    pub(crate) fn top(&self, user: u64) -> u8
        requires { user < self.now.count }
        ensures { result ≡ slice_index (digits (F.Field.meaning self.now.field).size self.now.coefficients user) (self.now.coefficients - 1) }
    {
        (user / (self.count / self.field.size() as u64)) as u8
    }
}
