// Boards: the definitions of the map, worked through by example on the panel's stays.

#![tactic(auto)]

ghost use Rattle.panel_boards.specs.Boards.{Boards};

/// What the boards show, proved of the definitions that the contracts of the map cite.
pub fn boards_hold()
    ensures { Boards }
{}
