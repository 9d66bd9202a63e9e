// How few deliveries will do: an operation's least number of deliver calls, and a sequence of calls that needs no more. There is no code here.
#![tactic(auto)]
