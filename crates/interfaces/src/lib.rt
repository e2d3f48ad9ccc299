// Tweakable ciphers and forkciphers as interfaces: what they answer, the laws that they keep, and ciphers made of any others.
#![tactic(auto)]

pub mod bytes;
pub mod forkcipher;
pub mod joined;
pub mod one_side;
pub mod sides;
pub mod tweakable;

pub use forkcipher::Forkcipher;
pub use joined::Joined;
pub use one_side::OneSide;
pub use sides::Side;
pub use tweakable::TweakableCipher;
