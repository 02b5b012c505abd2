// The tokens of a message: pairs of a kind and a value.
ghost use Rattle.std.specs.Prelude.{◌≡◌};
ghost use Rattle.attempts.specs.Tokens.{kinds_right};

// Whether the kind of each pair is 1 to `terminals`; a number left over is not looked at.
pub fn kinds_right(tokens: &[u32], terminals: u32) -> bool
    ensures { result ≡ kinds_right terminals tokens.now }
{
    for i in 0..tokens.len() / 2 {
        let kind = tokens[2 * i];
        if kind == 0 || terminals < kind {
            return false;
        }
    }
    true
}
