//! Classes with names.

ghost use Rattle.std.specs.Prelude.{length};
ghost use Rattle.vsi_lattice.specs.{NamePlaces.{owned}, NameRules.{AreNames}};

use crate::order::{Class, Classes, MaskLattice};
use crate::reader::place_of;

/// A lattice of 1 to 64 classes, each with a name.
#[derive(Drop)]
pub struct Lattice {
    names: Vec<String>,
    order: MaskLattice,
    pub ghost named: { AreNames (owned names.items) (length order.above.items) },
}

impl Lattice {
    ghost use Rattle.std.specs.Prelude.{◌≡◌, ◌<◌, slice_get, IfSome, Some, IsTrue};
    ghost use Rattle.vsi_syntax.specs.Words.{is_name};
    ghost use Rattle.vsi_lattice.specs.Order.{IsClass};
    ghost use Rattle.vsi_lattice.specs.LatticeView as spec;

    /// The lattice with these names and this order.
    pub(crate) fn new(names: Vec<String>, order: MaskLattice) -> Lattice
        requires { AreNames (owned names.items) (length order.above.items) }
        ensures names { spec.names result ≡ owned names.items }
        ensures order { spec.order result ≡ ⟦<MaskLattice as Classes>⟧.lattice order }
    {
        Lattice { names, order }
    }

    /// The class with this name, or `None` if no class has it.
    pub fn class_named(&self, name: &[u8]) -> Option<Class>
        ensures class { result ≡ spec.class_named self.now name.now }
        ensures within { IfSome result (IsClass (spec.order self.now)) }
        ensures place { IfSome result
            (λ class. slice_get (spec.names self.now) class ≡ Some name.now) }
        ensures named { IfSome result (λ _. IsTrue (is_name name.now)) }
    {
        match place_of(&self.names, name) {
            Some(place) => Some(Class::at(place as u8)),
            None => None,
        }
    }

    /// The name of a class of the lattice, as it is written in the file.
    pub fn name(&self, class: Class) -> &[u8]
        requires { IsClass (spec.order self.now) class }
        ensures place { slice_get (spec.names self.now) class ≡ Some result.now }
        ensures class { spec.class_named self.now result.now ≡ Some class }
    {
        self.names[class.index()].as_bytes()
    }
}

impl Classes for Lattice {
    ghost use Rattle.vsi_lattice.specs.{LatticeView.{order}, Laws.{lawful_is_lattice}};

    ghost lattice = { order };

    ghost laws = { λ s. lawful_is_lattice (order s) s.order.lawful };

    ghost few = { λ s. s.order.rows.small };

    fn count(&self) -> usize {
        self.order.count()
    }

    fn leq(&self, a: Class, b: Class) -> bool {
        self.order.leq(a, b)
    }

    fn join(&self, a: Class, b: Class) -> Class {
        self.order.join(a, b)
    }

    fn meet(&self, a: Class, b: Class) -> Class {
        self.order.meet(a, b)
    }

    fn bottom(&self) -> Class {
        self.order.bottom()
    }

    fn top(&self) -> Class {
        self.order.top()
    }
}
