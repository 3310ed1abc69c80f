// Writing the head of a book.
ghost use Rattle.std.specs.Prelude.{◌≡◌, ◌++◌, ◌≤◌, length, drop};
ghost use Rattle.shape.specs.Layout.{head_len};
ghost use Rattle.model.specs.Words.{encode_head};

use shape::{HEAD_LEN, Shape};

// Writes the head of a shape. The blocks stay.
pub fn write_head(book: &mut [u32], shape: Shape, clock: u32)
    requires { head_len ≤ length book.old }
    ensures { book.new ≡ encode_head shape clock ++ drop head_len book.old }
{
    let k = u32::from(shape.k);
    let n = u32::from(shape.n);
    let m = u32::from(shape.m);
    let g = u32::from(shape.g);
    book[..HEAD_LEN].copy_from_slice(&[k, n, m, g, clock, 0, 0, 0]);
}
