// What each of the six is: a watch, with a path rule and the law that ties the two.
pub use watches::{Pattern, Tint, Told};
