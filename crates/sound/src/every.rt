// One test of all tasks, or of all objects of a family.
ghost use Rattle.std.specs.Prelude.{◌≡◌, ◌<◌, ℕ, Bool};
ghost use Rattle.rules.specs.Sound.{each};
ghost use Rattle.sound.specs.Tests.{Tells};

// Whether the test holds of each number below `count`. Unlike `all` of an iterator it has no early end, so that the compiler takes many at once.
pub fn every<F: Fn(usize) -> bool>(count: usize, test: F) -> bool
    requires { (i : ℕ) → i < count → F.pre test i }
    ensures { (p : ℕ → Bool) → Tells count (F.post test) p → result ≡ each count p }
{
    let mut all = true;
    for i in 0..count {
        all = test(i) & all;
    }
    all
}
