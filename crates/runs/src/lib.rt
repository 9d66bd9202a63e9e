// What holds of every run of the machine: theorems over the definitions that its calls' contracts cite. There is no code here.
#![tactic(auto)]
