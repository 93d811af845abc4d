// A record lent by `&` or `&mut` over functions that take it by value: what is lent is, at the return, what those functions give,
// whatever the record is and whatever they do. Theory: a law is a function here, and nothing calls it.
#![tactic(auto)]

ghost use Rattle.std.specs.Prelude.{◌≡◌, ℕ, List};
ghost use Rattle.std.specs.Borrow.{MutBor};

// Lent alone, or beside what is read, and looked at.
pub fn looked<T: Copy, A, N, L: FnOnce(T, A) -> N>(c: &T, beside: A, look: L) -> N
    requires { L.pre look c.now beside }
    ensures { L.post look c.now beside result }
{
    let old = *c;
    look(old, beside)
}

// Lent alone, and filled.
pub fn filled<T: Copy, F: FnOnce() -> T>(c: &mut T, fill: F)
    requires { F.pre fill }
    ensures { F.post fill c.new }
{
    *c = fill();
}

// Beside what is given or read, as two numbers, a file, or a file and a number: the record and the number are those of one result.
pub fn changed<T: Copy, A, R: Copy, V: FnOnce(T, A) -> R, P: FnOnce(R) -> T, N: FnOnce(R) -> u64>(
    c: &mut T,
    beside: A,
    value: V,
    part: P,
    number: N,
) -> u64
    requires value_ok { V.pre value c.old beside }
    requires part_ok { P.IsAlwaysCallable part }
    requires number_ok { N.IsAlwaysCallable number }
    ensures { (r : R) × V.post value c.old beside r × P.post part r c.new × N.post number r result }
{
    let old = *c;
    let made = value(old, beside);
    *c = part(made);
    number(made)
}

// Stays: no plainer as one: event, lay and capture each say in V.post what their call leaves of every part that it writes.
// Beside a file and three numbers: one call leaves the file and a result; the record is made anew of that and of the old one.
pub fn event<
    T: Copy,
    R: Copy,
    V: FnOnce(T, &mut [u8], u32, u32, u32) -> R,
    P: FnOnce(T, R) -> T,
    N: FnOnce(R) -> u32,
>(c: &mut T, file: &mut [u8], kind: u32, a: u32, b: u32, value: V, part: P, number: N) -> u32
    requires value_ok { (x : MutBor (List ℕ)) → x.now ≡ file.old → V.pre value c.old x kind a b }
    requires part_ok { (r : R) → P.pre part c.old r }
    requires number_ok { N.IsAlwaysCallable number }
    ensures { (r : R) × (x y : MutBor (List ℕ)) × (x.now ≡ file.old) × (y.now ≡ file.new)
        × V.post value c.old x kind a b r y × P.post part c.old r c.new × N.post number r result }
{
    let old = *c;
    let performed = value(old, file, kind, a, b);
    *c = part(old, performed);
    number(performed)
}

// A record that is read, beside a part that is written.
pub fn lay<T: Copy, V: FnOnce(T, &mut [u8]) -> u32>(part: &mut [u8], p: &T, value: V) -> u32
    requires { (x : MutBor (List ℕ)) → x.now ≡ part.old → V.pre value p.now x }
    ensures { (x y : MutBor (List ℕ)) × (x.now ≡ part.old) × (y.now ≡ part.new) × V.post value p.now x result y }
{
    let profile = *p;
    value(profile, part)
}

// Beside a file that is written, a part that is read and another that is written.
pub fn capture<
    T: Copy,
    R: Copy,
    V: FnOnce(T, &mut [u8], &[u8], &mut [u8]) -> R,
    P: FnOnce(R) -> T,
    N: FnOnce(R) -> u64,
>(
    c: &mut T,
    file: &mut [u8],
    samples: &[u8],
    answers: &mut [u8],
    value: V,
    part: P,
    number: N,
) -> u64
    requires value_ok { (x u : MutBor (List ℕ)) → x.now ≡ file.old → u.now ≡ answers.old → V.pre value c.old x samples u }
    requires part_ok { P.IsAlwaysCallable part }
    requires number_ok { N.IsAlwaysCallable number }
    ensures { (r : R) × (x y u v : MutBor (List ℕ)) × (x.now ≡ file.old) × (y.now ≡ file.new) × (u.now ≡ answers.old) × (v.now ≡ answers.new)
        × V.post value c.old x samples.entry u r y v × P.post part r c.new × N.post number r result }
{
    let old = *c;
    let ran = value(old, file, samples, answers);
    *c = part(ran);
    number(ran)
}
