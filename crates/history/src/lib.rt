// The layered machine keeps to the method of `order`: its runs stand in one line. There is no code here.
#![tactic(auto)]
