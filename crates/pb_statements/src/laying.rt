ghost use Rattle.std.specs.Prelude.{◌≡◌, ◌+◌, ◌*◌, ◌<◌, ◌≤◌, ◌^◌, ℕ, pos, [], ◌∷◌, ◌++◌, length, map, slice_index_or};
ghost use Rattle.std.specs.List.{All};
ghost use Rattle.pb_linear.specs.Sizes.{sizes_of};
ghost use Rattle.pb_syntax.specs.declared.limits.TheConstants.{MOST_VIEWS};
ghost use Rattle.pb_model.specs.Bodies.{at_first};
ghost use Rattle.pb_statements.specs.Stored.{IsBlank, locals_of, outs_of, SameRoom, sides_of, sides_in, store_of};
ghost use Rattle.pb_statements.specs.Outputs.{end_in, end_of, free_sides, numbers_in};

use crate::scratch::Scratch;
use crate::sides::view_sides;
use crate::spot::Spot;
use pb_linear::{SIZE_TOP, Sizes};
use pb_program::{Decl, Read};

impl Scratch {
    /// Lays one more output after the others.
    fn lay_one(&mut self, first: u64, width: u64, height: u64)
        requires few { length self.old.spots.items < MOST_VIEWS }
        requires end { first ≡ end_of 0 self.old.spots.items }
        requires room { first + height * width ≤ length self.old.numbers.items }
        requires wide { width < 2 ^ 63 }
        requires tall { height < 2 ^ 63 }
        ensures spots { map sides_of self.new.spots.items ≡ map sides_of self.old.spots.items ++ (width, height) ∷ [] }
        ensures end { end_of 0 self.new.spots.items ≡ first + height * width }
        ensures locals { self.new.locals ≡ self.old.locals }
        ensures numbers { self.new.numbers ≡ self.old.numbers }
    {
        let spot = Spot {
            first,
            width,
            height,
        };
        let _ = self.spots.push(spot);
    }

    /// Lays the outputs of a rule one after the other, and tells how many numbers they have.
    fn lay(&mut self, outs: &[Read], matrices: &[Decl], s: &Sizes) -> u64
        requires few { length outs.now ≤ MOST_VIEWS }
        requires there { All (λ out. out.matrix < length matrices.now) outs.now }
        requires sizes { All (λ size. size ≤ SIZE_TOP) s.now.of }
        requires room { numbers_in (map (free_sides matrices.now (sizes_of s.now)) outs.now) ≤ length self.old.numbers.items }
        ensures spots { map sides_of self.new.spots.items ≡ map (free_sides matrices.now (sizes_of s.now)) outs.now }
        ensures end { result ≡ end_of 0 self.new.spots.items }
        ensures all { result ≡ numbers_in (map (free_sides matrices.now (sizes_of s.now)) outs.now) }
        ensures locals { self.new.locals ≡ self.old.locals }
        ensures numbers { self.new.numbers ≡ self.old.numbers }
    {
        self.spots.clear();
        let mut total = 0;
        for out in outs {
            let sides = view_sides(out, &matrices[out.matrix as usize], s);
            self.lay_one(total, sides.width, sides.height);
            total += sides.height * sides.width;
        }
        total
    }

    /// Lays the outputs of a rule one after the other, puts 0 in each local and in each place of the outputs, as before the first
    /// statement, and tells how many numbers they have.
    pub fn begin(&mut self, outs: &[Read], matrices: &[Decl], s: &Sizes) -> u64
        requires few { length outs.now ≤ MOST_VIEWS }
        requires there { All (λ out. out.matrix < length matrices.now) outs.now }
        requires sizes { All (λ size. size ≤ SIZE_TOP) s.now.of }
        requires room { numbers_in (map (free_sides matrices.now (sizes_of s.now)) outs.now) ≤ outs_of self.old }
        ensures sides { sides_in self.new ≡ map (free_sides matrices.now (sizes_of s.now)) outs.now }
        ensures end { result ≡ end_in self.new }
        ensures all { result ≡ numbers_in (map (free_sides matrices.now (sizes_of s.now)) outs.now) }
        ensures store { store_of self.new ≡ at_first }
        ensures locals { locals_of self.new ≡ locals_of self.old }
        ensures numbers { outs_of self.new ≡ outs_of self.old }
    {
        let total = self.lay(outs, matrices, s);
        self.clear(total);
        total
    }

    /// Lays one output, of one cell, and puts 0 in each place, as before the first statement of a rule for single cells.
    pub fn begin_cell(&mut self)
        requires room { 1 ≤ outs_of self.old }
        ensures blank { IsBlank self.new }
        ensures locals { locals_of self.new ≡ locals_of self.old }
        ensures numbers { outs_of self.new ≡ outs_of self.old }
    {
        self.spots.clear();
        self.lay_one(0, 1, 1);
        self.clear(1);
    }

    /// Puts 0 in each local and in each place of the outputs.
    fn clear(&mut self, total: u64)
        requires total { total ≡ end_of 0 self.old.spots.items }
        ensures store { store_of self.new ≡ at_first }
        ensures room { SameRoom self.old self.new }
    {
        let locals = self.locals.len();
        zero(&mut self.locals, locals);
        zero(&mut self.numbers, total as usize);
    }
}

/// Puts 0 in the first numbers.
fn zero(numbers: &mut Vec<i64>, count: usize)
    requires { count ≤ length numbers.old.items }
    ensures size { length numbers.new.items ≡ length numbers.old.items }
    ensures zeros { (i : ℕ) → i < count → slice_index_or numbers.new.items i (pos 0) ≡ pos 0 }
{
    // Most rules make one cell.
    if count == 1 {
        numbers[0] = 0;
        return;
    }
    for k in 0..count {
        numbers[k] = 0;
    }
}
