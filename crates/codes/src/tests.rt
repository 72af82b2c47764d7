// Tests put together as values, so that what uses them has no branch.
ghost use Rattle.std.specs.Prelude.{◌≡◌, ◌&&◌};

// Do both tests hold?
pub fn both(a: bool, b: bool) -> bool
    ensures { result ≡ (a && b) }
{
    if a { b } else { false }
}
