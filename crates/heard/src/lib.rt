// What a station holds after it heard one satellite's strings in order, one at each epoch: specs/Heard.antt. There is no code here.
#![tactic(auto)]
