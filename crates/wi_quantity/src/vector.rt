//! Only the reader of texts makes a vector that has terms, so its limits hold wherever one comes from: five terms of five
//! parts, with numbers of 16 bits. So the value of a term fits in 64 bits, without a test.
ghost use Rattle.std.specs.Prelude.{◌≡◌, [], true, length};
ghost use Rattle.wi_quantity.specs.Vectors.{is_vector};

use std::alloc::Global;
use std::marker::Model;
use wi_base::Listed;
use wi_world::Quantity;

/// So many times a quantity.
#[derive(Clone, Copy, PartialEq, Eq, Debug)]
pub struct Part {
    /// At most 65,535.
    pub coefficient: u32,
    pub quantity: Quantity,
}

/// What runs are weighed by: up to five terms, the first decides first. Each is a sum of up to five parts.
#[derive(Drop)]
pub struct Vector {
    pub(crate) terms: Vec<Listed<Part>>,
}

impl Model for Vector {
    ghost use Rattle.std.specs.Prelude.{◌≡◌, List, true};
    ghost use Rattle.wi_quantity.specs.declared.vector.Part.{Part};
    ghost use Rattle.wi_quantity.specs.Vectors.{is_vector};

    ghost Value = { List (List Part) };

    ghost view = { λ v. v.terms.items };

    ghost invariant = { λ v. is_vector v.terms.items ≡ true };
}

impl Vector {
    /// No term: the effort alone decides.
    pub fn new(alloc: Global) -> Vector
        ensures { result ≡ [] }
    {
        Vector {
            terms: Vec::new(alloc),
        }
    }

    /// What every vector keeps: at most five terms, each of at most five parts, whose coefficients have 16 bits.
    pub fn keeps(&self)
        ensures { is_vector self.now ≡ true }
    {
        let _terms = &self.terms;
    }

    /// How many terms there are. It takes no memory.
    pub fn len(&self) -> usize
        ensures { result ≡ length self.now }
    {
        self.terms.len()
    }

    /// The terms in order. It takes no memory.
    pub fn as_slice(&self) -> &[Listed<Part>]
        ensures { result.now ≡ self.now }
    {
        self.terms.as_slice()
    }
}
