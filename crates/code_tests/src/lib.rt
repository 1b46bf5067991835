// Tests of letters, words and codes on examples: every refusal, the largest code, bytes of any kind.
#![tactic(auto)]

#[cfg(test)]
mod codes;
#[cfg(test)]
mod letters;
