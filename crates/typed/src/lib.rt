// Laws of typed terms, over the text reader and the reader of cells: no code.
#![tactic(auto)]
