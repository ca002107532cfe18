// The generator of RFC 5170 (Park and Miller), and a draw by it.
#![tactic(auto)]

ghost use Rattle.std.specs.Prelude.{◌≤◌, ◌<◌, ◌≡◌, MatchOption};
ghost use Rattle.draws.specs.Draws.{Draws};
ghost use Rattle.draws.specs.Generator.{modulus};
ghost use Rattle.draws.specs.Generator.{next as following};

// 2^31 − 1
pub const MODULUS: usize = 2147483647;

// the generator's next value
pub fn next(raw: usize) -> usize
    requires { raw < modulus }
    ensures { (result ≡ following raw)
        × (result < modulus) }
{
    16807 * raw % MODULUS
}

// the generator's value, and the draws left
#[derive(Clone, Copy)]
pub struct Generator {
    pub raw: usize,
    pub left: usize,
    pub ghost small: { raw < modulus },
}

impl Generator {
    // one draw below max, if some are left
    pub fn draw(&mut self, max: usize) -> Option<usize>
        requires { (0 < max)
            × (max ≤ 10240) }
        ensures { MatchOption result
            ((self.old.left ≡ 0) × (self.new.raw ≡ self.old.raw) × (self.new.left ≡ 0))
            (λ v. Draws max self.old.raw self.old.left v self.new.raw self.new.left) }
    {
        self.left = self.left.checked_sub(1)?;
        self.raw = next(self.raw);
        Some(max * self.raw / MODULUS)
    }
}
