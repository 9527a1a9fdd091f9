ghost use Rattle.std.specs.Prelude.{◌≡◌, ◌≤◌, length};

mod methods;

// An array of which the first `len` places are in use. There is no `impl Model`: the store promises that a refusal leaves
// the spare places as they were too, which a model would hide.
#[derive(Drop)]
pub struct Stack<T, const N: usize> {
    items: [T; N],
    len: usize,
    ghost whole: { length items ≡ N },
    ghost fits: { len ≤ N },
}
