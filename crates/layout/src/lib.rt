#![tactic(auto)]

// The model's state as it is read from the state by value and the lent runs, and what every handler's lift to the model shares. No code.
