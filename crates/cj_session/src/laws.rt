//! Laws of sessions. The bodies do nothing.

ghost use Rattle.cj_ir.specs.declared.language.Program.{Program};
ghost use Rattle.cj_publish.specs.declared.view.View.{View};
ghost use Rattle.cj_publish.specs.Learns.{Learns};
ghost use Rattle.cj_session.specs.declared.versions.Versions.{Versions};
ghost use Rattle.cj_session.specs.Versions.{AreKnown};

/// Versions that a seat has read whole are such for all that it has seen later.
#[tactic(auto, using(crate::proofs::Going::known_later))]
pub fn later_views_know_the_versions()
    ensures { (P : Program) (v w : View) (versions : Versions) → AreKnown P v versions → Learns v w → AreKnown P w versions }
{}
