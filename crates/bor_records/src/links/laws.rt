//! Laws of nodes and links. Each function does nothing: its contract is the law, and it is proved
//! for all lists.

ghost use Rattle.bor_records.specs.Links.Laws.{EveryStakeIsAHolding, OpenRowsAreTheLatest, OpenRowsAreReadByKey, SnapshotsShowTheOpenRows, NodesAreReadByKey, AliasesAreReadByKey, AliasesAreReadByCandidates, LinksAreReadByCandidates, LinksAreOfRows, LinksAreKnownByRecord, LinksAreDistinct, NodesAreDistinct};

/// The interests of a majority stake are a holding, where each share has points: a chain of stakes
/// alone is a chain.
#[tactic(auto, using(crate::proofs::OnLinks::Stakes::stake_holds))]
pub fn every_stake_is_a_holding()
    ensures { EveryStakeIsAHolding }
{}

/// The rows from which nodes and links are made are, of each series, its latest statement where it
/// is open, and no others.
#[tactic(auto, using(crate::proofs::OnLinks::ByKey::latest_alone))]
pub fn open_rows_are_the_latest()
    ensures { OpenRowsAreTheLatest }
{}

/// A series is open with a row exactly where that row is one of the open rows, and of the series.
pub fn open_rows_are_read_by_key()
    ensures { OpenRowsAreReadByKey }
{}

/// A record is open for chains exactly where a snapshot of its agent's rows shows it, with that
/// row.
#[tactic(auto, using(crate::proofs::OnLinks::ByKey::shown_by_snapshots))]
pub fn snapshots_show_the_open_rows()
    ensures { SnapshotsShowTheOpenRows }
{}

/// The entry that is listed for a node is the one that the latest statement of its series makes.
#[tactic(auto, using(crate::proofs::OnLinks::ByKey::listed_by_key))]
pub fn nodes_are_read_by_key()
    ensures { NodesAreReadByKey }
{}

/// The aliases of a node are those that are alike by the latest statements.
pub fn aliases_are_read_by_key()
    ensures { AliasesAreReadByKey }
{}

/// The aliases of a node are the candidates that are alike by the latest statements, where the
/// candidates have the series of each row that, were it the latest, would be alike.
pub fn aliases_are_read_by_candidates()
    ensures { AliasesAreReadByCandidates }
{}

/// The links into a node are those that candidates make, no two of one record, where the candidates
/// have the series of each row that, were it the latest, would make one.
pub fn links_are_read_by_candidates()
    ensures { LinksAreReadByCandidates }
{}

/// A link of rows is of the record that it names, with the agent and the declaration of its ends.
#[tactic(auto, using(crate::proofs::OnLinks::OfRows::links_of_rows))]
pub fn links_are_of_rows()
    ensures { LinksAreOfRows }
{}

/// Two links of rows that name one record are equal.
pub fn links_are_known_by_record()
    ensures { LinksAreKnownByRecord }
{}

/// No record makes two links of rows.
#[tactic(auto, using(crate::proofs::OnLinks::OfRows::links_distinct))]
pub fn links_are_distinct()
    ensures { LinksAreDistinct }
{}

/// The nodes of rows are distinct.
#[tactic(auto, using(crate::proofs::OnLinks::Series::nodes_distinct))]
pub fn nodes_are_distinct()
    ensures { NodesAreDistinct }
{}
