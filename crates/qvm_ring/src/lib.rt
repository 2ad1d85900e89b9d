//! Exact amplitudes: the definitions of the ring Z[ω], of rays, gates and measurements in `specs/`, and their laws.
//!
//! Each law is the contract of a function with an empty body. So are the worked examples, which the check computes.
#![tactic(auto)]

mod amp;
mod comparison;
mod examples;
mod fault;
mod gate_laws;
mod laws;
mod local;
mod measure_laws;
mod multiply;
mod number;
mod product;
mod ray;
mod reduce;
mod settle;
mod signed_norm;
mod sums;
mod table;
mod wide;

pub use amp::Amp;
pub use comparison::greater;
pub use examples::{gates_by_hand, measurements_by_hand, rays_by_hand};
pub use fault::ApplyFault;
pub use gate_laws::{gates_are_unitary, unitary_gates_keep_some};
pub use laws::{
    norm_is_product_with_conjugate, quotient_times_root_two, reduced_rays, sign_of_norms,
    x_never_passes_the_limit,
};
pub use local::{local_state, with_local};
pub use measure_laws::{norms_are_positive, outcomes_keep_some};
pub use multiply::mul;
pub use ray::Ray;
pub use reduce::halve;
pub use signed_norm::Norm;
pub use sums::norm;
pub use wide::{Wide, plus};
