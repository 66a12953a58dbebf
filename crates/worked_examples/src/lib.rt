//! The definitions at work: small programs, texts, numbers and words with what they come to, each checked by computation.
#![tactic(auto)]
