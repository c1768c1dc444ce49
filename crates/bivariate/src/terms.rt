// The terms x^g·y^j with g + a·j < d: how great d must be for them to outnumber some points, and where their coefficients stand.
ghost use Rattle.std.specs.Prelude.{◌≡◌, ◌≤◌, ◌↔◌, ◌||◌, IsSome, IfSome, if◌then◌else◌, Some, None, MatchOption, ◌==◌};
ghost use Rattle.bivariate.specs.Bivariate.{coefficient};
ghost use Rattle.bivariate.specs.Terms.{degree_bound, LeastBound, most_y, polynomial};

// The least d with more than n terms, or None where a is 0.
pub fn degree_bound(a: usize, n: u32) -> Option<usize>
    ensures answer { result ≡ (if a == 0 then None else Some (degree_bound a n)) }
    ensures least { MatchOption result (a ≡ 0) (λ d. LeastBound a n d) }
{
    if a == 0 {
        return None;
    }
    let mut d = 0usize;
    let mut count = 0usize;
    // no plainer as a `for` over `0..`: code behind that would have to give an answer that is never given
    while count <= n as usize {
        // one more x for each j with a·j up to d
        count += d / a + 1;
        d += 1;
    }
    Some(d)
}

// The terms x^g·y^j with g + a·j < d: one at least, and not endlessly many.
#[derive(Clone, Copy)]
pub struct Terms {
    pub a: usize,
    pub d: usize,
    ghost weight: { 1 ≤ a },
    ghost degree: { 1 ≤ d },
}

impl Terms {
    // None where a or d is 0.
    pub fn new(a: usize, d: usize) -> Option<Terms>
        ensures exist { IsSome result ↔ ((1 ≤ a) × (1 ≤ d)) }
        ensures terms { IfSome result (λ t. (t.a ≡ a) × (t.d ≡ d)) }
    {
        if a == 0 || d == 0 {
            return None;
        }
        Some(Terms { a, d })
    }

    // The terms of the least d that has more than n of them, or None where a is 0.
    pub fn exceeding(a: usize, n: u32) -> Option<Terms>
        ensures exist { IsSome result ↔ (1 ≤ a) }
        ensures terms { IfSome result (λ t. (t.a ≡ a) × (t.d ≡ degree_bound a n)) }
        ensures least { IfSome result (λ t. LeastBound a n t.d) }
    {
        let d = degree_bound(a, n)?;
        Terms::new(a, d)
    }

    // The greatest power of y among them.
    pub fn most_y(&self) -> usize
        ensures { result ≡ most_y self.now.a self.now.d }
    {
        (self.d - 1) / self.a
    }

    // The coefficient of x^g·y^j in the polynomial with these coefficients, in the order of its terms.
    pub fn coefficient(&self, coefficients: &[u8], g: usize, j: usize) -> u8
        ensures { result ≡ coefficient (polynomial self.now.a self.now.d coefficients.now) g j }
    {
        // where the coefficients of a power of y start, and how many they are
        let mut start = 0usize;
        let mut width = self.d;
        for _power in 0..j {
            // no term has the next power, or its coefficients are past the end
            if width <= self.a || coefficients.len() - start <= width {
                return 0;
            }
            start += width;
            width -= self.a;
        }
        if g < width && g < coefficients.len() - start {
            coefficients[start + g]
        } else {
            0
        }
    }
}

// The coefficient of x^g·y^j in the polynomial with these coefficients, in the order of its terms, or None where a or d is 0.
pub fn coefficient_at(a: usize, d: usize, coefficients: &[u8], g: usize, j: usize) -> Option<u8>
    ensures { result ≡ (if a == 0 || d == 0 then None else Some (coefficient (polynomial a d coefficients.now) g j)) }
{
    let terms = Terms::new(a, d)?;
    Some(terms.coefficient(coefficients, g, j))
}
