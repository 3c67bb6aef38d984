// What the program says of itself.
pub(crate) const HELP: &str = "\
closing carries out a journal of calls, one to a line, and prints what each gave.

  closing FILE...    reads the files one after another; with no file, standard input
  closing --help     prints this text

A line holds one command; # starts a comment.

  days blank                          the blank page's days, for boards made after it
  days D0 ... D28                     these days, for boards made after it
  today DAY S0 ... S7                 makes today's board: valuation day and eight shares
  yesterday DAY S0 ... S7             makes yesterday's board
  quote WHICH PROVIDER LINE FIGURE    a provider's call; WHICH is today or yesterday
  unquote WHICH PROVIDER LINE         takes a provider's call away
  source PILE                         chooses the source: today, gap today,
                                      reserve today yesterday, gap reserve today yesterday
  page                                shows the chosen source's page
";
