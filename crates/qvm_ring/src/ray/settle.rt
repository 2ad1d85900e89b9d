//! What a product of a gate makes of a ray.

use crate::fault::ApplyFault;
use crate::ray::Ray;
use crate::settle::settled;
use crate::wide::Wide;
use std::alloc::Global;

impl Ray {
    ghost use Rattle.std.specs.Prelude.{◌≡◌, ◌≢◌, ◌^◌, ◌<◌, ◌≤◌, [], length, All, OnOk, OnErr, Err};
    ghost use Rattle.qvm_ring.specs.Ray.{State, weight, weight_limit, reduced};
    ghost use Rattle.qvm_ring.specs.Views.{wide_elements_of, map_of, IsBelow};

    /// Becomes a product, one number for each basis state, in reduced form.
    ///
    /// The numbers aren't all 0, and their coefficients are below 2^125 in absolute value. AmplitudeLimit comes exactly where
    /// the reduced form weighs more than 2^94. After a fault the ray is as it was.
    pub fn settle(&mut self, alloc: Global, product: Vec<Wide>) -> Result<(), ApplyFault>
        requires count { length product.items ≡ 2 ^ self.old.qubits }
        requires small { All (IsBelow (2 ^ 125)) (wide_elements_of product.items) }
        requires some { map_of (wide_elements_of product.items) ≢ [] }
        ensures ok { OnOk result (self.new ≡ record self.old { amplitudes = reduced (map_of (wide_elements_of product.items)) }) }
        ensures light { OnOk result (weight (reduced (map_of (wide_elements_of product.items))) ≤ weight_limit) }
        ensures heavy { result ≡ Err ApplyFault.AmplitudeLimit → weight_limit < weight (reduced (map_of (wide_elements_of product.items))) }
        ensures err { OnErr result (self.new ≡ self.old) }
    {
        self.amplitudes = settled(alloc, product)?;
        Ok(())
    }
}
