// Models that are refused at a line of their rules.

/// A function of chance.
pub(crate) const RANDOM: &str = "[top]
components : g
[g]
type : cell
dim : (1,1)
neighbors : g(0,0)
initialvalue : 0
localtransition : r
[r]
rule : { uniform(0,1) } 100 { t }
";

/// A cell that is no neighbour.
pub(crate) const STRANGER: &str = "[top]
components : g
[g]
type : cell
dim : (1,1)
neighbors : g(0,0)
initialvalue : 0
localtransition : r
[r]
rule : { (0,1) } 100 { t }
";

/// A value and a truth are added.
pub(crate) const MIXED: &str = "[top]
components : g
[g]
type : cell
dim : (1,1)
neighbors : g(0,0)
initialvalue : 0
localtransition : r
[r]
rule : { (0,0) + t } 100 { t }
";

/// A function that there is not.
pub(crate) const NO_FUNCTION: &str = "[top]
components : g
[g]
type : cell
dim : (1,1)
neighbors : g(0,0)
initialvalue : 0
localtransition : r
[r]
rule : { power(2,3) } 100 { t }
";

/// A brace that is never closed.
pub(crate) const OPEN: &str = "[top]
components : g
[g]
type : cell
dim : (1,1)
neighbors : g(0,0)
initialvalue : 0
localtransition : r
[r]
rule : 1 100 { t
";
