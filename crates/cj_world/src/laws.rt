//! Laws of plays. Their proofs are all that these functions have.

ghost use Rattle.std.specs.Prelude.{◌≡◌, ℕ, List};
ghost use Rattle.cj_ir.specs.declared.language.Program.{Program};
ghost use Rattle.cj_events.specs.declared.events.Event.{Event};
ghost use Rattle.cj_world.specs.declared.played.Played.{Played};
ghost use Rattle.cj_world.specs.Worlds.{World};
ghost use Rattle.cj_world.specs.Plays.{PlaysTo};
ghost use Rattle.cj_world.specs.Played.{NeverFall, IsPlay};

use cj_passes::laws::pipeline_is_unique;

/// Events lead to one world.
pub fn plays_are_unique()
    ensures { (P : Program) (words : ℕ) (events : List Event) (one other : World) →
        PlaysTo P words events one → PlaysTo P words events other → one ≡ other }
{
    pipeline_is_unique();
}

/// Events have one answer.
pub fn answers_are_unique()
    ensures { (P : Program) (words : ℕ) (events : List Event) (one other : Played) →
        IsPlay P words events one → IsPlay P words events other → one ≡ other }
{
    pipeline_is_unique();
}

/// No look finds an older version of a function than an earlier look did, of whatever run.
pub fn looks_never_fall()
    ensures { (P : Program) (words : ℕ) (events : List Event) (after : World) → PlaysTo P words events after → NeverFall after.trail }
{}
