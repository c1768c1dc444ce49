// A staircase of w vectors of w numbers, one behind the other. Vector t is alive while its own number, number t of it, is not 0:
// it is 1 from the start and set to 0 to take the vector out, so that which are left stands within the w·w numbers themselves:
// there is no more memory than these.
// That they are so many, and elements, is required of each call and in no struct. Where the slice is written, a struct round the
// `&mut` would have to promise after each call that it still lends the same slice, one clause more than it saves; for the
// functions that only read, a struct would have to be made anew at each call, since the slice is written between them.
ghost use Rattle.std.specs.Prelude.{◌≡◌, ℕ, ◌*◌, ◌<◌, length, IfSome, IfNone};
ghost use Rattle.field.specs.Meaning.{FieldMeaning, FieldLaws};
ghost use Rattle.interpolation.specs.Staircase.{vector, Alive, alive_count, Staircase};

// Makes the vectors the unit vectors, which solve no equation in particular.
pub(crate) fn start(w: usize, vectors: &mut [u8])
    requires { length vectors.old ≡ w * w }
    ensures staircase { (m : FieldMeaning) → FieldLaws m → Staircase m w vectors.new }
    ensures alive { alive_count w vectors.new w ≡ w }
{
    vectors.fill(0);
    // by index: tried `step_by` and `chunks_mut`, after which no proof knows the numbers, and `enumerate` would ask each of the w·w
    // numbers where it stands
    for t in 0..w {
        vectors[t * w + t] = 1;
    }
}

// Vector number t.
pub(crate) fn vector(w: usize, vectors: &[u8], t: usize) -> &[u8]
    requires sized { length vectors.now ≡ w * w }
    requires within { t < w }
    ensures { result.now ≡ vector w vectors.now t }
{
    &vectors[t * w..t * w + w]
}

// The first vector that is alive, or None where none is.
pub(crate) fn first_alive(w: usize, vectors: &[u8]) -> Option<&[u8]>
    requires sized { length vectors.now ≡ w * w }
    requires wide { 0 < w }
    ensures alive { IfSome result (λ v. (t : ℕ) × (t < w) × Alive w vectors.now t × (v.now ≡ vector w vectors.now t)) }
    ensures none { IfNone result (alive_count w vectors.now w ≡ 0) }
{
    let t = (0..w).find(|t| vectors[t * w + t] != 0)?;
    Some(vector(w, vectors, t))
}
