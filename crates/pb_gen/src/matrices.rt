ghost use Rattle.std.specs.Prelude.{◌≡◌, ◌<◌, ◌≤◌, IfOk, OnOk, All};
ghost use Rattle.rand_pcg.specs.Lcg.{advance};
ghost use Rattle.rand_pcg.specs.Pcg.{multiplier_64};
ghost use Rattle.pb_matrix.specs.Header.{cell_count};
ghost use Rattle.pb_gen.specs.Stream.{cell_of, drawn};
ghost use Rattle.pb_gen.specs.Examples.{example_of, IsInput};

use pb_matrix::Matrix;
use pb_values::Shape;
use rand_core::utils::NextWord;
use rand_pcg::Lcg64Xsh32;
use std::alloc::{AllocError, Global};

fn cell(word: u32) -> i64
    ensures { result ≡ cell_of word }
{
    i64::from(word % 19) - 9
}

// The cells of the next words, one for each.
fn draw_cells(alloc: Global, generator: &mut Lcg64Xsh32, count: u64) -> Result<Vec<i64>, AllocError>
    ensures cells { IfOk result (λ cells. cells.items ≡ drawn count generator.old) }
    ensures after { OnOk result (generator.new ≡ advance 64 multiplier_64 count generator.old) }
{
    let mut cells = Vec::with_capacity(alloc, count as usize)?;
    'words: for _ in 0..count {
        cells.push(cell(generator.next_word()))?;
    }
    Ok(cells)
}

// The matrix of this shape whose cells the next words give, row by row.
fn draw(alloc: Global, generator: &mut Lcg64Xsh32, shape: Shape) -> Result<Matrix, AllocError>
    requires width { shape.w ≤ 256 }
    requires height { shape.h ≤ 256 }
    ensures matrix { IfOk result (λ m. m ≡ record { shape = shape; cells = drawn (cell_count shape) generator.old }) }
    ensures after { OnOk result (generator.new ≡ advance 64 multiplier_64 (cell_count shape) generator.old) }
{
    let cells = draw_cells(alloc, generator, shape.w * shape.h)?;
    Ok(Matrix { shape, cells })
}

/// The matrices that a program of the demonstration is run on, for a size in cells. Program 0 multiplies two square
/// matrices, program 1 makes the rolling sum of a line. The words of PCG XSH RR 64/32 (O'Neill 2014) from a seed become
/// the cells of the two squares, row by row, and then those of the line, whichever program is asked for.
pub fn example(alloc: Global, which: u32, seed: u64, size: u64) -> Result<Vec<Matrix>, AllocError>
    requires which { which < 2 }
    requires least { 1 ≤ size }
    requires most { size ≤ 256 }
    ensures matrices { IfOk result (λ ms. ms.items ≡ example_of which seed size) }
    ensures inputs { IfOk result (λ ms. All IsInput ms.items) }
{
    let mut generator = Lcg64Xsh32::new(seed, 1);
    let square = Shape {
        dims: 2,
        w: size,
        h: size,
    };
    if which == 0 {
        let left = draw(alloc, &mut generator, square)?;
        let right = draw(alloc, &mut generator, square)?;
        return Ok(vec![in alloc; left, right]?);
    }
    generator.advance(2 * size * size);
    let line = Shape {
        dims: 1,
        w: size,
        h: 1,
    };
    let input = draw(alloc, &mut generator, line)?;
    Ok(vec![in alloc; input]?)
}
