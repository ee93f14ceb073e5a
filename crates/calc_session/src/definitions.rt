//! Names and what they stand for.
ghost use Rattle.std.specs.Prelude.{◌≡◌, ℕ, [], Ok, Err, map, All, MatchResult, OnOk, OnErr, IfOk};
ghost use Rattle.calc_session.specs.Session.{known, define as define_name};
ghost use Rattle.calc_session.specs.View.{held, plain};

use crate::fault::LineFault;
use canonical_terms::Poly;
use coeff_ring::CoeffRing;
use packed_monomial::Monomial;
use sdmp_laws::NoMemory;
use std::alloc::Global;
use std::collections::BTreeMap;
use std::marker::Model;

/// The names that are defined, and the polynomial of each. A name is found in a time that grows with the logarithm of their number, whatever the names.
///
/// Contracts see the list of the definitions.
#[derive(Drop)]
pub struct Definitions<R: CoeffRing, M: Monomial> {
    polynomials: BTreeMap<Vec<u8>, Poly<R, M>>,
}

impl<R: CoeffRing, M: Monomial> Model for Definitions<R, M> {
    ghost use Rattle.std.specs.Prelude.{List};
    ghost use Rattle.calc_session.specs.Definitions.{Definition, definitions_of};

    ghost Value = { List Definition };

    ghost view = { λ d. definitions_of d.polynomials.entries };
}

impl<R: CoeffRing, M: Monomial> Definitions<R, M> {
    /// Nothing is defined. It allocates nothing.
    pub fn new(alloc: Global) -> Definitions<R, M>
        ensures { result ≡ [] }
    {
        Definitions {
            polynomials: BTreeMap::new(alloc),
        }
    }

    /// The polynomial that the name stands for.
    pub fn look_up(&self, name: &[u8]) -> Result<&Poly<R, M>, LineFault>
        ensures known { MatchResult
            result
            (λ f. known (held (map plain self.now) name.now) ≡ Ok f.now.list)
            (λ fault. known (held (map plain self.now) name.now) ≡ Err fault) }
        ensures modulus { IfOk result (λ f. (p : ℕ) → All (λ d. d.poly.modulus ≡ p) self.now → f.now.modulus ≡ p) }
    {
        match self.polynomials.get(name) {
            Some(poly) => Ok(poly),
            None => Err(LineFault::UnknownName),
        }
    }

    /// Lets the name stand for this polynomial, and no longer for another. After NoMemory the definitions are as before.
    pub fn define(&mut self, alloc: Global, name: &[u8], poly: Poly<R, M>) -> Result<(), NoMemory>
        ensures ok { OnOk result (held (map plain self.new) ≡ define_name name.now poly.list (held (map plain self.old))) }
        ensures err { OnErr result (self.new ≡ self.old) }
        ensures modulus { OnOk
            result
            ((p : ℕ) → poly.modulus ≡ p → All (λ d. d.poly.modulus ≡ p) self.old → All (λ d. d.poly.modulus ≡ p) self.new) }
    {
        let Ok(name) = name.to_vec(alloc) else {
            return Err(NoMemory);
        };
        if self.polynomials.insert(name, poly).is_err() {
            return Err(NoMemory);
        }
        Ok(())
    }
}
