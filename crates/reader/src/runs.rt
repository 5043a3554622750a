//! Runs of bytes: the rest of a name, the digits of a number.
ghost use Rattle.std.specs.Prelude.{◌≡◌, ℕ, ◌≤◌, Bool, length};
ghost use Rattle.std.specs.List.{prefix_len};

// How many bytes at the front pass the test.
pub(crate) fn run_len<P: Fn(u8) -> bool>(rest: &[u8], passes: P) -> usize
    requires { P.IsAlwaysCallable passes }
    ensures within { result ≤ length rest.now }
    ensures longest { (p : ℕ → Bool) → ((b : ℕ) (r : Bool) → P.post passes b r → r ≡ p b) → result ≡ prefix_len p rest.now }
{
    rest.iter().take_while(|b| passes(**b)).count()
}
