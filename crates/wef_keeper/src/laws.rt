//! Laws of lists of changes and of kinds of rows, as contracts.

ghost use Rattle.wef_keeper.specs.Laws.{LastChangeDecides, OthersStay, ListsJoin, NumbersTellKinds, NumbersTellOwners};

/// What a list of changes leaves: the last change that names a key decides, a key that none names
/// keeps what stands there, and two lists one after the other are one list.
pub fn changes_by_key()
    ensures decides { LastChangeDecides }
    ensures others_stay { OthersStay }
    ensures lists_join { ListsJoin }
{}

/// What the number of a kind tells: the kind, since no two have one number, and its owner.
pub fn kinds_by_number()
    ensures kinds { NumbersTellKinds }
    ensures owners { NumbersTellOwners }
{}
