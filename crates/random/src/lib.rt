// Numbers that look random and are the same in every run: xorshift on 32 bits.
#![tactic(auto)]

ghost use Rattle.std.specs.Prelude.{◌≡◌, ◌%◌, ◌<◌, ◌↔◌, IsTrue, slice_get};
ghost use Rattle.random.specs.Xorshift.{xorshift};

// A generator: the last number that it gave, or its seed.
#[derive(Clone, Copy, PartialEq, Eq, Debug)]
pub struct Random {
    state: u32,
}

impl Random {
    pub fn new(seed: u32) -> Random
        ensures { result.state ≡ seed }
    {
        Random { state: seed }
    }

    // The next number.
    pub fn next(&mut self) -> u32
        ensures given { result ≡ xorshift self.old.state }
        ensures kept { self.new.state ≡ result }
    {
        let a = self.state;
        let b = a ^ (a << 13);
        let c = b ^ (b >> 17);
        self.state = c ^ (c << 5);
        self.state
    }

    // One of the n numbers from 0 up; 0 where n is 0, and then no number is used.
    pub fn below(&mut self, n: u32) -> u32
        ensures within { 0 < n → result < n }
        ensures given { 0 < n → result ≡ xorshift self.old.state % n }
        ensures kept { 0 < n → self.new.state ≡ xorshift self.old.state }
        ensures none { n ≡ 0 → result ≡ 0 }
        ensures unused { n ≡ 0 → self.new.state ≡ self.old.state }
    {
        if n == 0 { 0 } else { self.next() % n }
    }

    // Whether it is one of the n that is 0.
    pub fn one_in(&mut self, n: u32) -> bool
        ensures given { 0 < n → (IsTrue result ↔ xorshift self.old.state % n ≡ 0) }
        ensures kept { 0 < n → self.new.state ≡ xorshift self.old.state }
        ensures none { n ≡ 0 → IsTrue result }
        ensures unused { n ≡ 0 → self.new.state ≡ self.old.state }
    {
        self.below(n) == 0
    }

    // One of the values; there has to be one.
    pub fn pick<T: Copy, const N: usize>(&mut self, from: &[T; N]) -> T
        requires { 0 < N }
        ensures given { slice_get from.now (xorshift self.old.state % N) ≡ Some result }
        ensures kept { self.new.state ≡ xorshift self.old.state }
    {
        let i = self.next() as usize % N;
        from[i]
    }

    // The same of any number of values: of none the type's default, and then no number is used.
    pub fn pick_or_default<T: Copy + Default, const N: usize>(&mut self, from: &[T; N]) -> T
        ensures given { 0 < N → slice_get from.now (xorshift self.old.state % N) ≡ Some result }
        ensures kept { 0 < N → self.new.state ≡ xorshift self.old.state }
        ensures none { N ≡ 0 → T.is_default result }
        ensures unused { N ≡ 0 → self.new.state ≡ self.old.state }
    {
        if N == 0 {
            return T::default();
        }
        from[self.next() as usize % N]
    }
}
