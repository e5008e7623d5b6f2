// The bytes of books and keys: how they are laid out, and what follows the front of a list.
#![tactic(auto)]

ghost use Rattle.std.specs.Prelude.{◌≡◌, drop};

// What follows the first n elements; nothing where they are not all there.
pub fn after<T>(items: &[T], n: usize) -> &[T]
    ensures { result.now ≡ drop n items.now }
{
    items.get(n..).unwrap_or(&[])
}
