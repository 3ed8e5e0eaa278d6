//! A file without faults that has a projection, so that nothing is asked in vain.

ghost use Rattle.accepted_files.specs.Example.{ServiceTwiceIsChecked, ServiceTwiceIsAnswered, ServiceTwiceIsProjected, HasProjection};

/// The service started twice, with its protocol, is checked without a fault, asks no host function
/// and has a projection.
pub fn service_started_twice_is_checked()
    ensures checked { ServiceTwiceIsChecked }
    ensures answered { ServiceTwiceIsAnswered }
    ensures projected { ServiceTwiceIsProjected }
    ensures there { HasProjection }
{
    projection::examples::service_started_twice();
}
