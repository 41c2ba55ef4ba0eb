//! Laws of the whole server of `ifdb_model`: nobody below a level of labels hears what happens above it, as long as no
//! step crosses the level.
//!
//! A step crosses a level where it brings its session from outside to inside; where it is asked inside and declassifies a
//! tag that doesn't flow to the level; and where it is asked outside and binds a row to a parent inside. These are the
//! uses of authority across the level. The laws hold for every reading of lines, so whatever forms of requests are built.

ghost use Rattle.ifdb_laws.specs.TwoWorlds.{OutsideStep, InsideStep, AloneIsHeard, AloneEndsAlike, TwoWorlds};
ghost use Rattle.ifdb_laws.specs.OneSide.{QuietRunsAreOneSided, InsideSinceTheStart};
ghost use Rattle.ifdb_laws.specs.Ceilings.{CeilingsAreClearances, CeilingsAreHeard, CeilingsKeepInside};
ghost use Rattle.ifdb_laws.specs.Scripts.{TwoScripts};

/// In a run, a step that is asked outside a level, and doesn't cross it, leaves what is inside as it is.
pub fn outside_step()
    ensures { OutsideStep }
{}

/// After a run without a crossing, a step that is asked inside, and doesn't cross the level, depends on what is inside,
/// and on nothing else.
pub fn inside_step()
    ensures { InsideStep }
{}

/// The steps that are asked inside, run alone, are told what they are told among the others, and end with an equal part.
pub fn inside_alone()
    ensures heard { AloneIsHeard }
    ensures end { AloneEndsAlike }
{}

/// Two lists of steps that agree below a level, neither with a step that crosses it, are heard alike there. Steps that
/// are refused for want of memory may stand in both.
pub fn two_worlds()
    ensures { TwoWorlds }
{}

/// A script that was told all without want of memory gives those inside a level the bytes that each other script has them
/// hear that agrees with it below the level, neither with a step that crosses it.
pub fn two_scripts()
    ensures { TwoScripts }
{}

/// In a run without a crossing each session, each commit, and each row with its bound parents stays on one side of the level.
pub fn one_side()
    ensures states { QuietRunsAreOneSided }
    ensures sessions { InsideSinceTheStart }
{}

/// A session's ceiling is its principal's clearance. Where it flows to a level, the session is inside that in each state from its Open on,
/// so all that it is told is heard there.
pub fn ceilings()
    ensures clearances { CeilingsAreClearances }
    ensures inside { CeilingsKeepInside }
    ensures heard { CeilingsAreHeard }
{}
