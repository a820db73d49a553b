//! Laws of what is checked.
ghost use Rattle.vk_check.specs.Certificates.{CertificatesAreLeast};
ghost use Rattle.vk_check.specs.Checked.{YesIsExact};
ghost use Rattle.vk_check.specs.Verdicts.{NoMeansDifferent, VerdictExists, VerdictIsOne};

/// Two texts have a verdict and no other, and it is no only where they differ.
pub fn a_verdict_is_one()
    ensures exists { VerdictExists }
    ensures one { VerdictIsOne }
    ensures no { NoMeansDifferent }
{}

/// Reasons that are a certificate are the least list of what a project requires.
pub fn a_certificate_is_the_least_list()
    ensures { CertificatesAreLeast }
{}

/// A check says yes exactly to the report of the outcome that the pages and the setting have.
pub fn yes_is_said_exactly_to_the_defined_report()
    ensures { YesIsExact }
{}
