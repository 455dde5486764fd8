// Which call of the device a name stands for, where the words after it are all numbers.
ghost use Rattle.std.specs.Prelude.{◌≡◌};
ghost use Rattle.request.specs.Request.{shape, gauge_shape, shape_of};

// The number of a call, and how many words its line has.
#[derive(Drop)]
pub struct Shape {
    pub number: u64,
    pub words: usize,
}

// A call of that number, whose line has so many words.
fn call_shape(number: u64, words: usize) -> Option<Shape>
    ensures { result ≡ shape number words }
{
    Some(Shape { number, words })
}

// The call of a name on a domain's gauge.
#[tactic(auto, using(script::proofs::Same::equal_same), unfolding(crate::specs::Request::gauge_shape))]
fn gauge_shape(name: &[u8]) -> Option<Shape>
    ensures { result ≡ gauge_shape name.now }
{
    if name == b"tick".as_slice() {
        return call_shape(10, 2);
    }
    if name == b"reading".as_slice() {
        return call_shape(11, 2);
    }
    None
}

// The call of a name whose words are numbers alone.
#[tactic(auto, using(script::proofs::Same::equal_same), unfolding(crate::specs::Request::shape_of))]
pub fn shape_of(name: &[u8]) -> Option<Shape>
    ensures { result ≡ shape_of name.now }
{
    if name == b"open".as_slice() {
        return call_shape(0, 10);
    }
    if name == b"close".as_slice() {
        return call_shape(2, 2);
    }
    if name == b"register".as_slice() {
        return call_shape(3, 7);
    }
    if name == b"drop".as_slice() {
        return call_shape(4, 2);
    }
    if name == b"post".as_slice() {
        return call_shape(5, 4);
    }
    if name == b"take".as_slice() {
        return call_shape(6, 2);
    }
    if name == b"live".as_slice() {
        return call_shape(7, 2);
    }
    if name == b"free".as_slice() {
        return call_shape(8, 2);
    }
    if name == b"state".as_slice() {
        return call_shape(12, 2);
    }
    gauge_shape(name)
}
