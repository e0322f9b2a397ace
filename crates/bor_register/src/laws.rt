//! Laws of registers. Each function does nothing: its contract is the law, and it is proved for
//! every register.

ghost use Rattle.bor_register.specs.Journal.{OrderBetweenAgentsIsForgotten, FilingsStayInOrder};
ghost use Rattle.bor_register.specs.Seen.{SeriesIsOfOneAgent};

/// Two lists of filings in order of acceptance stand for one register exactly where the day, the
/// tokens and each agent's filings in their order are the same: the order between agents is
/// nowhere. This holds of lists in which no agent's name comes twice and each filing's agent is
/// enrolled.
pub fn order_between_agents_is_forgotten()
    ensures { OrderBetweenAgentsIsForgotten }
{}

/// A register has each agent's filings in the order in which they were accepted, where no agent's
/// name comes twice and each filing's agent is enrolled.
pub fn filings_stay_in_order()
    ensures { FilingsStayInOrder }
{}

/// The rows of a record that a viewer sees are those of its agent's filings, where agents stand in
/// the order of their names: to read a record asks for the filings of one agent.
pub fn series_is_of_one_agent()
    ensures { SeriesIsOfOneAgent }
{}
