// No code: for each public function of the model, the theorem that two answers that keep its promise are equal.
#![tactic(auto)]
